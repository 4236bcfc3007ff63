// The growing list over borrowed memory, and what every store of levels can do.
#![tactic(auto)]

pub mod blank;
pub mod growing;
pub mod levels;
pub mod reading;
pub mod refusal;
pub mod stores;
