// A store of levels as runs: one record of borrowed memory for levels in a row that are equal.
#![tactic(auto)]

ghost use Rattle.std.specs.Prelude.{◌≡◌, ℕ, ◌+◌, ◌-◌, ◌<◌, ◌≤◌, ◌++◌, length, take, drop, replicate, slice_index_or, slice_set};
ghost use Rattle.runs.specs.Runs.{spread, NoneEmpty, Located, unless_empty};
ghost use Rattle.store.specs.Growing.{list_items, list_most};
ghost use Rattle.store.specs.Stores.{Fresh};

use store::blank::Blank;
use store::growing::GrowingList;
use store::reading::Spot;
use store::refusal::Refusal;
use store::stores::LevelStore;

// `count` levels in a row that are all `level`.
#[derive(Clone, Copy, PartialEq, Eq, Debug, Default)]
pub struct Run {
    pub level: i16,
    pub count: u32,
}

impl Blank for Run {
    ghost use Rattle.runs.specs.Runs.{no_run, only_run};

    ghost blank = { no_run };

    ghost only = { only_run };
}

// Records, none of which is empty; so there are never more of them than levels.
#[derive(Drop)]
struct Records<'a> {
    list: GrowingList<'a, Run>,
    ghost none_empty: { NoneEmpty (list_items list) },
}

// The total is kept, so that `length` and `append` need not pass over the records.
#[derive(Drop)]
pub struct RunStore<'a> {
    records: Records<'a>,
    total: u32,
    ghost counted: { total ≡ length (spread (list_items records.list)) },
    ghost fits: { total ≤ list_most records.list },
}

impl Run {
    // Its levels before the one that has `behind` levels behind it.
    fn before(self, behind: u32) -> Run
        requires { behind < self.count }
        ensures { result ≡ record { level = self.level; count = self.count - behind - 1 } }
    {
        Run {
            count: self.count - behind - 1,
            ..self
        }
    }
}

// Puts a record before the one at `index`, unless it stands for no level.
fn add(list: &mut GrowingList<Run>, index: u32, run: Run)
    requires within { index ≤ length (list_items list.old) }
    requires room { 0 < run.count → length (list_items list.old) < list_most list.old }
    ensures records { list_items list.new ≡ take index (list_items list.old) ++ (unless_empty run.level run.count ++ drop index (list_items list.old)) }
    ensures most { list_most list.new ≡ list_most list.old }
{
    if run.count > 0 {
        list.insert(index, run).unwrap();
    }
}

// There is a place for each record, so no call on the list is refused. What is said of a spot holds for each place that it stands at.
// That the list's most stays is said by each call on a `&mut`: no type can say it for them.
impl Records<'_> {
    fn as_slice(&self) -> &[Run]
        ensures { result.now ≡ list_items self.now.list }
    {
        self.list.as_slice()
    }

    // The record that a spot is in.
    fn at(&self, spot: Spot) -> Run
        requires { spot.index < length (list_items self.now.list) }
        ensures { (d : Run) → result ≡ slice_index_or (list_items self.now.list) spot.index d }
    {
        self.as_slice()[spot.index as usize]
    }

    // Appends levels: the last record takes them if its level is the same, and else a new one.
    fn push(&mut self, more: Run)
        requires some { 0 < more.count }
        requires room { length (spread (list_items self.old.list)) + more.count ≤ list_most self.old.list }
        ensures levels { spread (list_items self.new.list) ≡ spread (list_items self.old.list) ++ replicate more.count more.level }
        ensures most { list_most self.new.list ≡ list_most self.old.list }
    {
        let end = self.list.length();
        match self.as_slice().last().copied() {
            Some(run) if run.level == more.level => {
                let longer = Run {
                    count: run.count + more.count,
                    ..more
                };
                self.list.put(end - 1, longer).unwrap();
            }
            _ => self.list.append(more, 1).unwrap(),
        }
    }

    // Splits the record that a place lies in.
    fn split(&mut self, spot: Spot, level: i16)
        requires at { (place : ℕ) × Located (list_items self.old.list) place spot }
        requires room { length (spread (list_items self.old.list)) ≤ list_most self.old.list }
        ensures levels { (place : ℕ) → Located (list_items self.old.list) place spot → spread (list_items self.new.list) ≡ slice_set (spread (list_items self.old.list)) place level }
        ensures most { list_most self.new.list ≡ list_most self.old.list }
    {
        let run = self.at(spot);
        let behind = Run {
            count: spot.offset,
            ..run
        };
        self.list.put(spot.index, Run { level, count: 1 }).unwrap();
        add(&mut self.list, spot.index + 1, behind);
        add(&mut self.list, spot.index, run.before(spot.offset));
    }

    // Takes away the levels from a place on.
    fn trim(&mut self, spot: Spot)
        requires { (place : ℕ) × Located (list_items self.old.list) place spot }
        ensures levels { (place : ℕ) → Located (list_items self.old.list) place spot → spread (list_items self.new.list) ≡ take place (spread (list_items self.old.list)) }
        ensures most { list_most self.new.list ≡ list_most self.old.list }
    {
        let kept = self.at(spot).before(spot.offset);
        if kept.count == 0 {
            self.list.cut_back(spot.index).unwrap();
            return;
        }
        self.list.put(spot.index, kept).unwrap();
        self.list.cut_back(spot.index + 1).unwrap();
    }
}

impl<'a> RunStore<'a> {
    ghost use Rattle.runs.specs.Kept.{records, run_meaning, RunStands};

    pub fn new(memory: &'a mut [Run]) -> RunStore<'a>
        ensures { Fresh (run_meaning result) (length memory.old) }
    {
        RunStore {
            records: Records {
                list: GrowingList::new(memory),
            },
            total: 0,
        }
    }

    // The spot before the first level of the record at an index, or past the last.
    fn spot_at(&self, index: u32) -> Spot
        ensures { index ≤ length (records self.now) → RunStands self.now result (length (spread (take index (records self.now)))) }
    {
        let offset = match self.records.as_slice().get(index as usize) {
            Some(run) => run.count - 1,
            None => 0,
        };
        Spot { index, offset }
    }

    // The spot before the level at a place: passes over the records behind it.
    fn find(&self, place: u32) -> Spot
        requires { place < self.now.total }
        ensures { Located (records self.now) place result }
    {
        let mut runs = self.records.as_slice();
        let mut before = self.total;
        while let Some((run, front)) = runs.split_last() {
            let end = before;
            before -= run.count;
            if before <= place {
                return Spot {
                    index: front.len() as u32,
                    offset: end - place - 1,
                };
            }
            runs = front;
        }
        unreachable!()
    }
}

impl<'a> LevelStore for RunStore<'a> {
    ghost use Rattle.runs.specs.Kept.{run_meaning, RunStands, run_bounded};

    ghost meaning = { run_meaning };

    // Its type says all.
    ghost in_order = { λ _. Unit {0} };

    ghost stands = { RunStands };

    ghost bounded = { run_bounded };

    fn length(&self) -> u32 {
        self.total
    }

    fn most(&self) -> u32 {
        self.records.list.most()
    }

    // Passes over the records behind the place.
    fn at(&self, place: u32) -> Result<i16, Refusal> {
        if place >= self.total {
            return Err(Refusal::Place);
        }
        let spot = self.find(place);
        Ok(self.records.at(spot).level)
    }

    fn start(&self) -> Spot {
        self.spot_at(0)
    }

    fn seek(&self, place: u32) -> Spot {
        if place < self.total {
            self.find(place)
        } else {
            self.spot_at(self.records.list.length())
        }
    }

    // The spot's offset counts the levels of its record behind the next one.
    fn next(&self, spot: &mut Spot) -> Option<i16> {
        let run = self.records.as_slice().get(spot.index as usize)?;
        if spot.offset > 0 {
            spot.offset -= 1;
        } else {
            *spot = self.spot_at(spot.index + 1);
        }
        Some(run.level)
    }

    fn append(&mut self, level: i16, count: u32) -> Result<(), Refusal> {
        if count > self.records.list.most() - self.total {
            return Err(Refusal::NoRoom);
        }
        if count == 0 {
            return Ok(());
        }
        self.records.push(Run { level, count });
        self.total += count;
        Ok(())
    }

    fn put(&mut self, place: u32, level: i16) -> Result<(), Refusal> {
        if place >= self.total {
            return Err(Refusal::Place);
        }
        let spot = self.find(place);
        self.records.split(spot, level);
        Ok(())
    }

    fn cut_back(&mut self, kept: u32) -> Result<(), Refusal> {
        if kept > self.total {
            return Err(Refusal::Place);
        }
        if kept < self.total {
            let spot = self.find(kept);
            self.records.trim(spot);
            self.total = kept;
        }
        Ok(())
    }
}
