// What every store of levels can do, said by the levels that it holds and the most that it can hold.
ghost use Rattle.std.specs.Prelude.{◌≡◌, ℕ, ◌≤◌, length};
ghost use Rattle.store.specs.Reads.{Read};
ghost use Rattle.store.specs.declared.reading.Spot.{Spot};
ghost use Rattle.store.specs.Stores.{Meaning, Appends, Puts, CutsBack, Steps};

use crate::reading::Spot;
use crate::refusal::Refusal;

pub trait LevelStore {
    // The levels, first to last, and the most that it can hold.
    ghost meaning: { Self → Meaning };

    // What it keeps besides agrees with the levels, as far as its type does not say so.
    ghost in_order: { Self → Type 0 };

    // A reading that is at a spot reads the level at a place next.
    ghost stands: { Self → Spot → ℕ → Type 0 };

    // What each `impl` shows of its levels.
    ghost bounded: { (s : Self) → (length (meaning s).levels ≤ (meaning s).most) × ((meaning s).most ≤ 2147483647) };

    fn length(&self) -> u32
        ensures { result ≡ length (meaning self.now).levels };

    fn most(&self) -> u32
        ensures { result ≡ (meaning self.now).most };

    // Reads one level at any place; a store may search for it. `start` and `next` read in order at a constant cost a level.
    fn at(&self, place: u32) -> Result<i16, Refusal>
        ensures { Read (meaning self.now).levels place result };

    // The spot before the first level.
    fn start(&self) -> Spot
        ensures { stands self.now result 0 };

    // The spot before the level at a place, or past the last; a store may search for it.
    fn seek(&self, place: u32) -> Spot
        ensures { place ≤ length (meaning self.now).levels → stands self.now result place };

    // Reads the level where the spot stands, and moves the spot on: a constant cost a level in every store.
    fn next(&self, spot: &mut Spot) -> Option<i16>
        ensures { Steps (meaning self.now).levels (stands self.now) spot.old spot.new result };

    // Appends `level` `count` times.
    fn append(&mut self, level: i16, count: u32) -> Result<(), Refusal>
        ensures levels { Appends meaning self.old self.new level count result }
        ensures ordered { in_order self.old → in_order self.new };

    fn put(&mut self, place: u32, level: i16) -> Result<(), Refusal>
        ensures levels { Puts meaning self.old self.new place level result }
        ensures ordered { in_order self.old → in_order self.new };

    // Keeps the first `kept` levels.
    fn cut_back(&mut self, kept: u32) -> Result<(), Refusal>
        ensures levels { CutsBack meaning self.old self.new kept result }
        ensures ordered { in_order self.old → in_order self.new };
}
