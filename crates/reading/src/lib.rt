// What a source reads as along the path to one leaf: validity bits, the slots of lists, rows, and the trace of a range of rows.
#![tactic(auto)]

ghost use Rattle.reading.specs.Trace.{TraceIsStriping};
ghost use Rattle.reading.specs.Sound.{SourcesAreSound};

mod bits;
mod branch;
mod slot;
mod slots;
mod validity;

pub use bits::{bit_at, ones_below};
pub use branch::Branch;
pub use slot::{Offset, Slot};
pub use slots::{FixedSlots, OffsetSlots, Slots, ViewSlots, slot_of};
pub use validity::Validity;

// A theorem: the trace of a range is the striping of the rows read there, or stops at the first fault that the reading meets.
pub fn trace_is_striping()
    ensures { TraceIsStriping }
{}

// A theorem: the path to a leaf of a source that meets all rules reads only what is in the buffers.
pub fn sources_are_sound()
    ensures { SourcesAreSound }
{}
