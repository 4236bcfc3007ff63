// What one word of a statement, or a part of a word, means: numbers, ranges, kinds.
#![tactic(auto)]

ghost use Rattle.std.specs.Prelude.{◌≡◌, ℕ, ◌<◌, List, IfOk, string_bytes, MatchOption, Result};
ghost use Rattle.line_fault.specs.declared.Key.{Key};
ghost use Rattle.line_fault.specs.declared.LineFault.{LineFault};
ghost use Rattle.part.specs.Reads.{Unsigned, Signed, Narrowed, ByteRead, DotsAt, FirstDots, RangeRead, kind_named, KindRead, NullabilityRead, fault_of};

use line_fault::{Key, LineFault};
use numeral::Fault;
use statement::Rows;
use std::alloc::Global;
use std::str::from_utf8;
use table::Kind;
use words::is_word;

// What the value of a part may be.
pub trait Value: Drop {
    // What a text means as such a value, or the fault of the part of that key.
    ghost means: { Key → List ℕ → Result Self LineFault → Type 0 };

    fn read(text: &[u8], key: Key) -> Result<Self, LineFault>
        ensures { means key text.now result };
}

fn told(fault: Fault, key: Key) -> LineFault
    ensures { result ≡ fault_of key fault }
{
    match fault {
        Fault::NotANumber => LineFault::NotANumber(key),
        Fault::TooLarge => LineFault::TooLarge(key),
    }
}

impl Value for u64 {
    ghost means = { Unsigned 64 };

    fn read(text: &[u8], key: Key) -> Result<u64, LineFault> {
        numeral::number(text).map_err(|fault| told(fault, key))
    }
}

impl Value for i64 {
    ghost means = { Signed 64 };

    fn read(text: &[u8], key: Key) -> Result<i64, LineFault> {
        numeral::signed(text).map_err(|fault| told(fault, key))
    }
}

// A number of a type that may be too small for it.
fn narrowed<W: Value, N: TryFrom<W>>(text: &[u8], key: Key) -> Result<N, LineFault>
where
    N::Error: Drop,
    ensures { Narrowed key (W.means key text.now) N.try_from_gives result }
{
    N::try_from(W::read(text, key)?).map_err(|_| LineFault::TooLarge(key))
}

impl Value for u32 {
    ghost means = { Unsigned 32 };

    fn read(text: &[u8], key: Key) -> Result<u32, LineFault> {
        narrowed::<u64, u32>(text, key)
    }
}

impl Value for u8 {
    ghost means = { Unsigned 8 };

    fn read(text: &[u8], key: Key) -> Result<u8, LineFault> {
        narrowed::<u64, u8>(text, key)
    }
}

impl Value for i32 {
    ghost means = { Signed 32 };

    fn read(text: &[u8], key: Key) -> Result<i32, LineFault> {
        narrowed::<i64, i32>(text, key)
    }
}

// Two hexadecimal digits.
pub fn byte(text: &[u8]) -> Result<u8, LineFault>
    ensures { ByteRead text.now result }
{
    numeral::byte(text).ok_or(LineFault::NotAByte)
}

// Where the first `..` of a text stands.
fn dots(text: &[u8]) -> Option<usize>
    ensures { MatchOption result ((k : ℕ) → DotsAt text.now k → ⊥) (λ p. FirstDots text.now p) }
{
    text.windows(2).position(|pair| matches!(pair, b".."))
}

// FROM..TO
impl Value for Rows {
    ghost means = { RangeRead };

    fn read(text: &[u8], key: Key) -> Result<Rows, LineFault> {
        let Some(place) = dots(text) else {
            return Err(LineFault::NotARange(key));
        };
        let from = u64::read(&text[..place], key)?;
        let to = u64::read(&text[place + 2..], key)?;
        Ok(Rows { from, to })
    }
}

// A kind by its word or its number, which may be none of a kind's.
pub fn kind(text: &[u8]) -> Result<u8, LineFault>
    ensures { KindRead (kind_named text.now) text.now result }
{
    let number = Kind::ALL
        .iter()
        .position(|kind| is_word(text, kind.word().as_bytes()));
    // its number is its place: ALL has them in the order of their numbers
    match number {
        Some(number) => Ok(number as u8),
        None => u8::read(text, Key::Kind),
    }
}

// Not a `match` on byte strings: it tests byte by byte in a tree, whose proof did not close.
pub fn nullable(text: &[u8]) -> Result<bool, LineFault>
    ensures { NullabilityRead text.now result }
{
    if is_word(text, b"nullable") {
        Ok(true)
    } else if is_word(text, b"required") {
        Ok(false)
    } else {
        Err(LineFault::NotNullability)
    }
}

// The text itself.
pub fn name(heap: Global, text: &[u8]) -> Result<String, LineFault>
    ensures { IfOk result (λ s. string_bytes s ≡ text.now) }
{
    let text = from_utf8(text).map_err(|_| LineFault::NotText(Key::Name))?;
    Ok(String::from_str(heap, text)?)
}
