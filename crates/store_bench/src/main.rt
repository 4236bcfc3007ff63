// Times appending levels to each make of store and reading them back in order. `store_bench` runs small stores and prints
// what they hold; `store_bench COUNT REPEATS` prints the least time that a level took, beside a plain fill of the same memory.
#![tactic(auto)]

use histogram::Histogram;
use level_data::LevelData;
use runs::{Run, RunStore};
use std::alloc::{AllocError, Global};
use std::io;
use std::time::{Clock, Duration, Instant};
use store::levels::Levels;
use store::stores::LevelStore;
use timing::{Trials, arguments, least_time, share};

// How many levels a trial appends, in runs of how many.
#[derive(Clone, Copy)]
struct Load {
    count: u32,
    run: u32,
}

impl Load {
    // Neighbouring runs differ.
    fn append_to<S: LevelStore>(self, store: &mut S) {
        let run = self.run.max(1);
        for k in 0..self.count / run {
            // each store has room for all of them
            let _ = store.append((k % 4) as i16, run);
        }
    }
}

fn read<S: LevelStore>(store: &S) -> u32 {
    Levels::new(store).fold(0, |sum: u32, level| {
        sum.wrapping_add(u32::from(level.unsigned_abs()))
    })
}

// What a trial held, and the times that it took.
#[derive(Clone, Copy)]
struct Spent {
    length: u32,
    sum: u32,
    write: Duration,
    read: Duration,
}

impl Spent {
    // The same, with the lesser times of two trials.
    fn least(self, again: Spent) -> Spent {
        Spent {
            write: self.write.min(again.write),
            read: self.read.min(again.read),
            ..self
        }
    }
}

fn trial<S: LevelStore>(rt: &impl Clock, store: &mut S, load: Load) -> io::Result<Spent> {
    let start = Instant::now(rt)?;
    load.append_to(store);
    let write = start.elapsed(rt)?;
    let start = Instant::now(rt)?;
    let sum = read(store);
    let read = start.elapsed(rt)?;
    Ok(Spent {
        length: store.length(),
        sum,
        write,
        read,
    })
}

fn show(rt: &impl Print, what: &str, time: Duration, count: u32) -> io::Result<()> {
    let tenths = share(time, count.max(1) as usize, 10);
    println!(rt; "    {what}: {}.{} ns a level", tenths / 10, tenths % 10)
}

// The memory that stores are made over.
#[derive(Drop)]
struct Memory {
    levels: Vec<i16>,
    records: Vec<Run>,
}

impl Memory {
    // Room for so many levels in each make of store.
    fn new(heap: Global, count: u32) -> Result<Memory, AllocError> {
        Ok(Memory {
            levels: vec![in heap; 0i16; count as usize]?,
            records: vec![in heap; Run::default(); count as usize]?,
        })
    }

    // Times a plain fill where there are repeats.
    fn report_fill(&mut self, rt: &(impl Clock + Print), trials: Trials) -> io::Result<()> {
        let levels = self.levels.as_mut_slice();
        let filled = least_time(rt, trials.repeats, |before| {
            levels.fill((before % 4) as i16)
        })?;
        match filled {
            Some(time) => show(rt, "a plain fill", time, trials.items),
            None => Ok(()),
        }
    }
}

// Tries one make with runs of each length, and times it where there are repeats.
fn report<F: FnMut(&mut Memory, Load) -> io::Result<Spent>>(
    rt: &impl Print,
    memory: &mut Memory,
    make: &str,
    trials: Trials,
    mut measure: F,
) -> io::Result<()>
    requires { F.IsAlwaysCallable measure }
{
    let count = trials.items;
    for run in [count, 10, 1] {
        let load = Load { count, run };
        let mut spent = measure(memory, load)?;
        println!(rt;
            "{make}, runs of {run}: {} levels, sum {}",
            spent.length, spent.sum
        )?;
        if trials.repeats > 0 {
            for _ in 0..trials.repeats {
                spent = spent.least(measure(memory, load)?);
            }
            show(rt, "appending", spent.write, count)?;
            show(rt, "reading in order", spent.read, count)?;
        }
    }
    Ok(())
}

fn main(rt: HostRuntime) -> io::Result<()> {
    let trials = arguments(&rt, u64::from(u32::MAX))?;
    let mut memory = Memory::new(rt.alloc(), trials.items)?;
    report(&rt, &mut memory, "level data", trials, |m, load| {
        trial(&rt, &mut LevelData::new(m.levels.as_mut_slice()), load)
    })?;
    report(&rt, &mut memory, "runs", trials, |m, load| {
        trial(&rt, &mut RunStore::new(m.records.as_mut_slice()), load)
    })?;
    report(
        &rt,
        &mut memory,
        "level data under a histogram",
        trials,
        |m, load| {
            let store = LevelData::new(m.levels.as_mut_slice());
            trial(&rt, &mut Histogram::new(store), load)
        },
    )?;
    report(
        &rt,
        &mut memory,
        "runs under a histogram",
        trials,
        |m, load| {
            let store = RunStore::new(m.records.as_mut_slice());
            trial(&rt, &mut Histogram::new(store), load)
        },
    )?;
    memory.report_fill(&rt, trials)
}
