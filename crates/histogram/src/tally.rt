// Seventeen slots: of the levels 0 to 15, and of all others.
ghost use Rattle.std.specs.Prelude.{◌≡◌, ◌<◌};
ghost use Rattle.histogram.specs.Tallies.{slot_of};

pub const SLOTS: usize = 17;

// The slot that counts `level`.
pub(crate) fn slot(level: i16) -> usize
    ensures slot { result ≡ slot_of level }
    ensures within { result < SLOTS }
{
    match level {
        0..=15 => level as usize,
        _ => SLOTS - 1,
    }
}
