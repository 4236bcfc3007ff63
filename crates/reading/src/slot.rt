ghost use Rattle.std.specs.Prelude.{◌≡◌, ◌+◌, ◌*◌, ◌<◌, ℤ, ◌-ℤ◌};
ghost use Rattle.reading.specs.Slots.{span as span_of, within, held};

// What a slot of a list holds: null, nothing, its first place in the child and the place after its last, or what no list can hold.
// A pair, as docs/TABLE.md says, since a `Range` is not Copy.
#[derive(Clone, Copy, PartialEq, Eq, Debug)]
pub enum Slot {
    Null,
    Empty,
    Spanned((usize, usize)),
    Wrong,
}

// An offset or a size of either width. `Into` only relates it to the number that it is, and a list of offsets needs a function.
pub trait Offset: Copy + Drop + Into<i64> {
    ghost value: { Self → ℤ };

    ghost widens: { (x : Self) (y : ℤ) → Self.converts x y → y ≡ value x };
}

impl Offset for i32 {
    ghost value = { λ x. x };

    ghost widens = { λ x y e. e };
}

impl Offset for i64 {
    ghost value = { λ x. x };

    ghost widens = { λ x y e. e };
}

// The elements from a place on, so many of them, if they are within a child of `most` slots.
fn held_within(most: usize, first: usize, size: usize) -> Slot
    requires { first + size < 18446744073709551616 }
    ensures { result ≡ held (within most first size) }
{
    let end = first + size;
    if end > most {
        return Slot::Wrong;
    }
    if size == 0 {
        return Slot::Empty;
    }
    Slot::Spanned((first, end))
}

// The elements from a place on, so many of them, in a child of `most` slots.
pub fn sized(most: usize, from: i64, size: i64) -> Slot
    ensures { result ≡ held (span_of most from size) }
{
    if size == 0 {
        return Slot::Empty;
    }
    if size < 0 || from < 0 {
        return Slot::Wrong;
    }
    held_within(most, from as usize, size as usize)
}

// The elements between two offsets, in a child of `most` slots.
pub fn between(most: usize, from: i64, to: i64) -> Slot
    ensures { result ≡ held (span_of most from (to -ℤ from)) }
{
    if from == to {
        return Slot::Empty;
    }
    if from < 0 || to < from {
        return Slot::Wrong;
    }
    sized(most, from, to - from)
}

// The elements of slot i of a fixed-size list, in a child of `most` slots.
pub fn fixed(most: usize, size: usize, i: usize) -> Slot
    requires { i * size + size < 18446744073709551616 }
    ensures { result ≡ held (within most (i * size) size) }
{
    held_within(most, i * size, size)
}
