ghost use Rattle.std.specs.Prelude.{◌≡◌, ◌+◌, ◌<◌, ◌≤◌};
ghost use Rattle.reading.specs.Bits.{valid_in, differs, BitsIn, SameRun};
ghost use Rattle.reading.specs.Single.{BitsIn-prop};
ghost use Rattle.reading.specs.Packed.{packed};

use crate::bits::{bit_at, last_bits, ones_below, word_at};

// The validity bits of a node's slots, from bit `start` of the bytes on; without a start every slot is valid.
// A start may be any number, so its whole bytes are passed before anything is added to it.
#[derive(Clone, Copy)]
pub struct Validity<'a> {
    pub bytes: &'a [u8],
    pub start: Option<usize>,
    pub slots: usize,
    pub ghost bits: { BitsIn bytes.now slots start } by { BitsIn-prop bytes.now slots start },
    pub ghost small: { slots ≤ 2147483647 },
}

impl Validity<'_> {
    // How many slots are looked at together: eight bytes have at least 57 bits from the first slot's on, wherever in its byte that stands.
    pub const TOGETHER: usize = 56;

    // Whether slot i is valid.
    pub fn is_valid(&self, i: usize) -> bool
        requires { i < self.now.slots }
        ensures { result ≡ valid_in self.now.bytes.now self.now.start i }
    {
        match self.start {
            None => true,
            Some(start) => bit_at(&self.bytes[start / 8..], start % 8 + i),
        }
    }

    // Which of the slots i..i + count are valid, slot i lowest.
    pub fn bits(&self, i: usize, count: usize) -> u64
        requires few { count ≤ Self.TOGETHER }
        requires range { i + count ≤ self.now.slots }
        ensures { result ≡ packed (valid_in self.now.bytes.now self.now.start) count i }
    {
        match self.start {
            None => ones_below(count),
            Some(start) => {
                let rest = &self.bytes[start / 8..];
                let b = start % 8 + i;
                if i + 64 <= self.slots {
                    (word_at(rest, b / 8) >> (b % 8)) & ones_below(count)
                } else {
                    last_bits(rest, b, count)
                }
            }
        }
    }

    // Which of the slots i..i + count are not as one that is valid or null, as told; slot i lowest.
    // Inlined, since `same_from` stands in the loops of other crates, where this would be a call.
    #[inline(always)]
    fn other_bits(&self, there: bool, i: usize, count: usize) -> u64
        requires few { count ≤ Self.TOGETHER }
        requires range { i + count ≤ self.now.slots }
        ensures { result ≡ packed (differs there (valid_in self.now.bytes.now self.now.start)) count i }
    {
        let valid = self.bits(i, count);
        if there {
            ones_below(count) - valid
        } else {
            valid
        }
    }

    // How many slots from `from` on, below `end`, are valid or null as that one is. Inlined, since lists ask it of each run, which is often short.
    #[inline(always)]
    pub fn same_from(&self, from: usize, end: usize) -> usize
        requires some { from < end }
        requires end { end ≤ self.now.slots }
        ensures { SameRun self.now.bytes.now self.now.start from end result }
    {
        if self.start.is_none() {
            return end - from;
        }
        let first = self.is_valid(from);
        let mut i = from + 1;
        // many runs are of one slot, and need no word of bits
        if i < end && self.is_valid(i) != first {
            return 1;
        }
        // `step_by` proves too, but null lists took 0.64 ns an entry with it and 0.62 without
        while i < end {
            let count = Self::TOGETHER.min(end - i);
            let other = self.other_bits(first, i, count);
            if other > 0 {
                return i + other.trailing_zeros() as usize - from;
            }
            i += count;
        }
        end - from
    }
}
