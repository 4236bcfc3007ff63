ghost use Rattle.std.specs.Prelude.{◌≡◌, ◌+◌, ◌*◌, ◌^◌, ◌<◌, ◌≤◌, ℕ, map, length, pos, slice_index_or};
ghost use Rattle.reading.specs.declared.slot.Slot.TheVariants.{Null};
ghost use Rattle.reading.specs.declared.validity.Validity.{Validity as ValidityOf};
ghost use Rattle.reading.specs.Slots.{Span, span as span_of, within, listed, viewed, held, slot_at, buffers, NodeIn};
ghost use Rattle.reading.specs.Along.{slots_with};

use crate::slot::{Offset, Slot, between, fixed, sized};
use crate::validity::Validity;
use table::{Kind, PathNode};

// The slots of a list of any kind.
pub trait Slots {
    // which of them are valid and how many they are, and where the elements of each stand in the child
    ghost bits: { Self → ValidityOf };

    ghost spans: { Self → ℕ → Span };

    fn validity(&self) -> Validity<'_>
        ensures { result ≡ bits self.now };

    // What slot i holds where it is valid.
    fn elements(&self, i: usize) -> Slot
        requires { i < (bits self.now).slots }
        ensures { result ≡ held (spans self.now i) };

    // What slot i holds: validity is looked at first.
    fn slot(&self, i: usize) -> Slot
        requires { i < length (slots_with (bits self.now) (spans self.now)) }
        ensures { result ≡ slice_index_or (slots_with (bits self.now) (spans self.now)) i Null }
    {
        if self.validity().is_valid(i) {
            self.elements(i)
        } else {
            Slot::Null
        }
    }
}

// A list whose slots go from one offset to the next, over a child of `most` slots.
#[derive(Drop)]
pub struct OffsetSlots<'a, T> {
    pub validity: Validity<'a>,
    pub offsets: &'a [T],
    pub most: usize,
    pub ghost inside: { validity.slots < length offsets.now },
}

impl<'a, T: Offset> OffsetSlots<'a, T> {
    // The slots whose offsets stand in a buffer from place `first` on.
    pub(crate) fn new(validity: Validity<'a>, buffer: &'a [T], first: usize, most: usize) -> Self
        requires { first + validity.slots < length buffer.now }
        ensures validity { result.validity ≡ validity.entry }
        ensures spans { (i : ℕ) → listed result.most (map T.Offset.value result.offsets.now) i ≡ listed most (map T.Offset.value buffer.now) (first + i) }
    {
        OffsetSlots {
            validity,
            offsets: &buffer[first..],
            most,
        }
    }
}

impl<'a, T: Offset> Slots for OffsetSlots<'a, T> {
    ghost bits = { λ s. s.validity };

    ghost spans = { λ s. listed s.most (map T.Offset.value s.offsets.now) };

    fn validity(&self) -> Validity<'_> {
        self.validity
    }

    fn elements(&self, i: usize) -> Slot {
        let from = self.offsets[i];
        let to = self.offsets[i + 1];
        between(self.most, from.into(), to.into())
    }
}

// A list whose slots each have an offset and a size, over a child of `most` slots.
#[derive(Drop)]
pub struct ViewSlots<'a, T> {
    pub validity: Validity<'a>,
    pub offsets: &'a [T],
    pub sizes: &'a [T],
    pub most: usize,
    pub ghost offsets_inside: { validity.slots ≤ length offsets.now },
    pub ghost sizes_inside: { validity.slots ≤ length sizes.now },
}

impl<'a, T: Offset> ViewSlots<'a, T> {
    // The slots whose offsets and sizes stand in one buffer, each from its first place on.
    pub(crate) fn new(
        validity: Validity<'a>,
        buffer: &'a [T],
        offset: usize,
        size: usize,
        most: usize,
    ) -> Self
        requires offsets { offset + validity.slots ≤ length buffer.now }
        requires sizes { size + validity.slots ≤ length buffer.now }
        ensures validity { result.validity ≡ validity.entry }
        ensures spans { (i : ℕ) → span_of result.most (slice_index_or (map T.Offset.value result.offsets.now) i (pos 0)) (slice_index_or (map T.Offset.value result.sizes.now) i (pos 0)) ≡ viewed most (map T.Offset.value buffer.now) (offset + i) (size + i) }
    {
        ViewSlots {
            validity,
            offsets: &buffer[offset..],
            sizes: &buffer[size..],
            most,
        }
    }
}

impl<'a, T: Offset> Slots for ViewSlots<'a, T> {
    ghost bits = { λ s. s.validity };

    ghost spans = { λ s i. span_of s.most (slice_index_or (map T.Offset.value s.offsets.now) i (pos 0)) (slice_index_or (map T.Offset.value s.sizes.now) i (pos 0)) };

    fn validity(&self) -> Validity<'_> {
        self.validity
    }

    fn elements(&self, i: usize) -> Slot {
        let from = self.offsets[i];
        let size = self.sizes[i];
        sized(self.most, from.into(), size.into())
    }
}

// A list whose slots all have the same size, over a child of `most` slots.
#[derive(Drop)]
pub struct FixedSlots<'a> {
    pub validity: Validity<'a>,
    pub size: usize,
    pub most: usize,
    pub ghost inside: { validity.slots * size < 2 ^ 64 },
}

impl<'a> FixedSlots<'a> {
    pub(crate) fn new(validity: Validity<'a>, size: usize, most: usize) -> Self
        requires { validity.slots * size < 2 ^ 64 }
        ensures validity { result.validity ≡ validity.entry }
        ensures spans { (i : ℕ) → within result.most (i * result.size) result.size ≡ within most (i * size) size }
    {
        FixedSlots {
            validity,
            size,
            most,
        }
    }
}

impl<'a> Slots for FixedSlots<'a> {
    ghost bits = { λ s. s.validity };

    ghost spans = { λ s i. within s.most (i * s.size) s.size };

    fn validity(&self) -> Validity<'_> {
        self.validity
    }

    fn elements(&self, i: usize) -> Slot {
        fixed(self.most, self.size, i)
    }
}

// What slot i of a node over these buffers holds, in a child of `most` slots; leaves and structs hold no elements.
// Inlined, so that `Branch::slot` passes no node on.
#[inline(always)]
pub fn slot_of(
    bytes: &[u8],
    narrow: &[i32],
    wide: &[i64],
    n: PathNode,
    most: usize,
    i: usize,
) -> Slot
    requires slot { i < n.slots }
    requires small { n.slots ≤ 2147483647 }
    requires inside { NodeIn (buffers bytes.now narrow.now wide.now) n }
    ensures { result ≡ slot_at (buffers bytes.now narrow.now wide.now) n most i }
{
    let validity = Validity {
        bytes,
        start: n.validity,
        slots: n.slots,
    };
    // an arm each for the two widths: their buffers differ in type
    match n.kind {
        Kind::List => OffsetSlots::new(validity, narrow, n.offsets, most).slot(i),
        Kind::LargeList => OffsetSlots::new(validity, wide, n.offsets, most).slot(i),
        Kind::FixedSizeList => FixedSlots::new(validity, n.size, most).slot(i),
        Kind::ListView => ViewSlots::new(validity, narrow, n.offsets, n.sizes, most).slot(i),
        Kind::LargeListView => ViewSlots::new(validity, wide, n.offsets, n.sizes, most).slot(i),
        Kind::Leaf | Kind::Struct if validity.is_valid(i) => Slot::Wrong,
        Kind::Leaf | Kind::Struct => Slot::Null,
    }
}
