// A layer that counts the levels of the store below it. Layers pile: a layer is a store.
#![tactic(auto)]

ghost use Rattle.std.specs.Prelude.{◌≡◌};
ghost use Rattle.histogram.specs.Tallies.{Counted};

use store::levels::Levels;
use store::reading::Spot;
use store::refusal::Refusal;
use store::stores::LevelStore;
use tally::slot;

mod tally;

pub use tally::SLOTS;

#[derive(Drop)]
pub struct Histogram<S: LevelStore> {
    below: S,
    counts: [u32; SLOTS],
    ghost counted: { Counted (S.meaning below).levels counts },
}

impl<S: LevelStore> Histogram<S> {
    // Counts what `below` holds.
    pub fn new(below: S) -> Histogram<S>
        ensures below { result.below ≡ below }
        ensures ordered { S.in_order below → S.in_order result.below }
    {
        let mut counts = [0; SLOTS];
        for level in Levels::new(&below) {
            counts[slot(level)] += 1;
        }
        Histogram { below, counts }
    }

    // How often each of the levels 0 to 15 comes, and how often any other.
    pub fn counts(&self) -> [u32; SLOTS]
        ensures kept { result ≡ self.now.counts }
        ensures counted { Counted (S.meaning self.now.below).levels result }
    {
        self.counts
    }
}

impl<S: LevelStore> LevelStore for Histogram<S> {
    ghost meaning = { λ h. S.meaning h.below };

    // That the counts are those of the levels, its type says.
    ghost in_order = { λ h. S.in_order h.below };

    ghost stands = { λ h. S.stands h.below };

    ghost bounded = { λ h. S.bounded h.below };

    fn length(&self) -> u32 {
        self.below.length()
    }

    fn most(&self) -> u32 {
        self.below.most()
    }

    fn at(&self, place: u32) -> Result<i16, Refusal> {
        self.below.at(place)
    }

    fn start(&self) -> Spot {
        self.below.start()
    }

    fn seek(&self, place: u32) -> Spot {
        self.below.seek(place)
    }

    fn next(&self, spot: &mut Spot) -> Option<i16> {
        self.below.next(spot)
    }

    fn append(&mut self, level: i16, count: u32) -> Result<(), Refusal> {
        self.below.append(level, count)?;
        self.counts[slot(level)] += count;
        Ok(())
    }

    fn put(&mut self, place: u32, level: i16) -> Result<(), Refusal> {
        let old = self.below.at(place)?;
        self.below.put(place, level)?;
        self.counts[slot(old)] -= 1;
        self.counts[slot(level)] += 1;
        Ok(())
    }

    fn cut_back(&mut self, kept: u32) -> Result<(), Refusal> {
        let mut counts = self.counts;
        // as in new, counting off: one line, no plainer as a function of both
        for level in Levels::starting_at(&self.below, kept) {
            counts[slot(level)] -= 1;
        }
        self.below.cut_back(kept)?;
        self.counts = counts;
        Ok(())
    }
}
