// The levels of a store in order, as an iterator.
ghost use Rattle.std.specs.Prelude.{◌≡◌, drop};
ghost use Rattle.std.specs.Iterator.{YieldsFirst, item_count};

use crate::reading::Spot;
use crate::stores::LevelStore;
use std::marker::Model;

// It is seen as the levels that are left.
#[derive(Drop)]
pub struct Levels<'a, S: LevelStore> {
    store: &'a S,
    spot: Spot,
    place: u32,
}

impl<'a, S: LevelStore> Model for Levels<'a, S> {
    ghost use Rattle.std.specs.Prelude.{◌≤◌, List, ℤ, drop, length};

    ghost Value = { List ℤ };

    ghost view = { λ l. drop l.place (S.meaning l.store.now).levels };

    ghost invariant = { λ l. (l.place ≤ length (S.meaning l.store.now).levels) × S.stands l.store.now l.spot l.place };
}

impl<'a, S: LevelStore> Levels<'a, S> {
    // All levels of `store`.
    pub fn new(store: &'a S) -> Levels<'a, S>
        ensures { result ≡ (S.meaning store.now).levels }
    {
        Levels {
            store,
            spot: store.start(),
            place: 0,
        }
    }

    // The levels of `store` from a place on; none where it has no such place.
    pub fn starting_at(store: &'a S, place: u32) -> Levels<'a, S>
        ensures { result ≡ drop place (S.meaning store.now).levels }
    {
        let place = place.min(store.length());
        Levels {
            store,
            spot: store.seek(place),
            place,
        }
    }
}

impl<'a, S: LevelStore> Iterator for Levels<'a, S> {
    type Item = i16;

    ghost next_gives = { YieldsFirst (λ l. l) };

    ghost remaining = { item_count (λ l. l) };

    fn next(&mut self) -> Option<i16> {
        let level = self.store.next(&mut self.spot)?;
        self.place += 1;
        Some(level)
    }

    fn size_hint(&self) -> (usize, Option<usize>) {
        let left = (self.store.length() - self.place) as usize;
        (left, Some(left))
    }
}
