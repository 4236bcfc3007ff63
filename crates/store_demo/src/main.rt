// Runs the same code over each make of store and over piles of layers, and prints what it did.
#![tactic(auto)]

ghost use Rattle.std.specs.Prelude.{◌≡◌, ◌≤◌, [], ◌++◌, length, replicate, pos};
ghost use Rattle.histogram.specs.Tallies.{Counted};

use histogram::{Histogram, SLOTS};
use level_data::LevelData;
use runs::{Run, RunStore};
use std::io;
use store::growing::GrowingList;
use store::refusal::Refusal;
use store::stores::LevelStore;
use store_reader::{append_and_read, append_both, holds};

// What a layer over an empty store counts of eight levels.
fn count_eight<S: LevelStore + Drop>(below: S) -> [u32; SLOTS]
    ensures { (S.meaning below).levels ≡ [] → 8 ≤ (S.meaning below).most → Counted (replicate 4 (pos 3) ++ replicate 4 (pos 5)) result }
{
    let mut layer = Histogram::new(below);
    // A store with less room refuses both runs.
    let _ = append_both(&mut layer, 3, 5, 4);
    layer.counts()
}

// What two layers over runs count of them.
fn layered_runs(memory: &mut [Run]) -> [u32; SLOTS]
    ensures { 8 ≤ length memory.old → Counted (replicate 4 (pos 3) ++ replicate 4 (pos 5)) result }
{
    count_eight(Histogram::new(RunStore::new(memory)))
}

// What one layer over level data counts of them.
fn layered_data(memory: &mut [i16]) -> [u32; SLOTS]
    ensures { 8 ≤ length memory.old → Counted (replicate 4 (pos 3) ++ replicate 4 (pos 5)) result }
{
    count_eight(LevelData::new(memory))
}

// What a trial of a store came to.
#[derive(Clone, Copy, Debug)]
struct Trial {
    both: bool,
    read: i16,
    put: bool,
    past: bool,
    cut: bool,
    same: bool,
    full: bool,
    length: u32,
    most: u32,
}

// Writes, puts, cuts back and reads back.
fn try_store<S: LevelStore>(store: &mut S) -> Trial {
    let both = append_both(store, 1, -2, 3).is_ok();
    // As the output has it: -1 where the level was refused.
    let read = append_and_read(store, 7).unwrap_or(-1);
    let put = store.put(1, 4).is_ok();
    let past = store.put(7, 4).is_ok();
    let cut = store.cut_back(5).is_ok();
    let same = holds(store, &[1, 4, 1, -2, -2]);
    let full = append_both(store, 0, 1, 4000000000).is_ok();
    Trial {
        both,
        read,
        put,
        past,
        cut,
        same,
        full,
        length: store.length(),
        most: store.most(),
    }
}

fn main(rt: HostRuntime) -> io::Result<()> {
    let mut memory = [9; 10];
    let mut records = [Run { level: 9, count: 9 }; 10];
    let mut data = LevelData::new(&mut memory);
    let trial = try_store(&mut data);
    println!(rt; "level data: {trial:?}")?;
    let mut runs = RunStore::new(&mut records);
    let trial = try_store(&mut runs);
    println!(rt; "runs: {trial:?}")?;
    let mut layers = Histogram::new(Histogram::new(RunStore::new(&mut records)));
    let trial = try_store(&mut layers);
    let counts = layers.counts();
    println!(rt; "layers: {trial:?}")?;
    println!(rt; "{counts:?}")?;
    let counts = layered_runs(&mut records);
    println!(rt; "{counts:?}")?;
    let counts = layered_data(&mut memory);
    println!(rt; "{counts:?}")?;
    let mut data = LevelData::new(&mut memory);
    let empty = data.form();
    data.append(2, 6).unwrap();
    let uniform = data.form();
    data.append(3, 1).unwrap();
    let mixed = data.form();
    println!(rt; "forms: {empty:?}, {uniform:?}, {mixed:?}")?;
    let mut places = [5; 4];
    let mut list: GrowingList<u32> = GrowingList::new(&mut places);
    list.append(8, 3).unwrap();
    let refused = u8::from(list.append(8, 2).unwrap_err());
    list.cut_back(1).unwrap();
    println!(rt; "positions: {refused} {places:?}")
}
