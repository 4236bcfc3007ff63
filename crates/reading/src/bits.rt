ghost use Rattle.std.specs.Prelude.{◌≡◌, ◌+◌, ◌-◌, ◌*◌, ◌^◌, ◌<◌, ◌≤◌, length};
ghost use Rattle.reading.specs.Bits.{bit};
ghost use Rattle.reading.specs.Packed.{packed};

use crate::validity::Validity;

// Whether bit b of some bytes is set.
pub fn bit_at(bytes: &[u8], b: usize) -> bool
    requires { b < 8 * length bytes.now }
    ensures { result ≡ bit bytes.now b }
{
    (bytes[b / 8] >> (b % 8)) & 1 == 1
}

// So many lowest bits, all set.
pub fn ones_below(count: usize) -> u64
    requires { count ≤ Validity.TOGETHER }
    ensures { result ≡ 2 ^ count - 1 }
{
    (1 << count) - 1
}

// The bits of the eight bytes from byte p on.
pub fn word_at(bytes: &[u8], p: usize) -> u64
    requires { p + 8 ≤ length bytes.now }
    ensures { result ≡ packed (bit bytes.now) 64 (8 * p) }
{
    u64::from_le_bytes(*bytes[p..].first_chunk().unwrap())
}

// A few bits from bit b on, of the bytes that have them, the last one first: near the end of the bytes no eight of them are left.
// Cold and never inlined, since inlined it takes the registers of the loop that calls it (0.12 and not 0.08 ns a leaf).
#[cold]
#[inline(never)]
pub fn last_bits(bytes: &[u8], b: usize, count: usize) -> u64
    requires bits { b + count ≤ 8 * length bytes.now }
    requires few { count ≤ Validity.TOGETHER }
    requires small { b < 4294967296 }
    ensures { result ≡ packed (bit bytes.now) count b }
{
    let end = (b + count).div_ceil(8);
    let mut word: u64 = 0;
    for at in (b / 8..end).rev() {
        word = 256 * word + u64::from(bytes[at]);
    }
    (word >> (b % 8)) & ones_below(count)
}
