// How many entries and values a range of rows has: fast, and exact where it answers.
#![tactic(auto)]

mod flat;
mod lists;
mod measured;
mod range;
mod reach;
mod walk;

pub use measured::Measured;
pub use range::SlotRange;
pub use walk::{MOST_ENTRIES, tally};
