// A store that is empty, holds one level some number of times, or holds its levels one by one in borrowed memory.
#![tactic(auto)]

ghost use Rattle.std.specs.Prelude.{◌≡◌, ◌≤◌, length, replicate};
ghost use Rattle.level_data.specs.Forms.{form_count};
ghost use Rattle.level_data.specs.declared.Form.TheVariants.{Empty, Materialized};
ghost use Rattle.store.specs.Growing.{list_items, list_most};
ghost use Rattle.store.specs.Stores.{Fresh, Appends, Puts};

use store::growing::GrowingList;
use store::reading::Spot;
use store::refusal::Refusal;
use store::stores::LevelStore;

#[derive(Clone, Copy, PartialEq, Eq, Debug)]
pub enum Form {
    Empty,
    // One level, and how often it comes.
    Uniform(i16, u32),
    Materialized,
}

// The list holds the levels once they are materialized, and means nothing before.
#[derive(Drop)]
pub struct LevelData<'a> {
    list: GrowingList<'a, i16>,
    form: Form,
    ghost fits: { form_count form ≤ list_most list },
}

impl<'a> LevelData<'a> {
    ghost use Rattle.level_data.specs.Data.{data_meaning, data_most, Formed, Written};

    pub fn new(memory: &'a mut [i16]) -> LevelData<'a>
        ensures meaning { Fresh (data_meaning result) (length memory.old) }
        ensures form { result.form ≡ Empty }
    {
        LevelData {
            list: GrowingList::new(memory),
            form: Form::Empty,
        }
    }

    pub fn form(&self) -> Form
        ensures { result ≡ self.now.form }
    {
        self.form
    }

    // Writes `level` `count` times into the memory, as the levels.
    fn materialize(&mut self, level: i16, count: u32)
        requires { count ≤ data_most self.old }
        ensures form { self.new.form ≡ Materialized }
        ensures list { list_items self.new.list ≡ replicate count level }
        ensures most { data_most self.new ≡ data_most self.old }
    {
        self.list.cut_back(0).unwrap();
        self.list.append(level, count).unwrap();
        self.form = Form::Materialized;
    }

    // As a store's `append`, for callers who ask for the form: it says the form too.
    pub fn append(&mut self, level: i16, count: u32) -> Result<(), Refusal>
        ensures levels { Appends data_meaning self.old self.new level count result }
        ensures form { Formed self.old self.new level count result }
    {
        // The list tests its own room: another test before it costs 1.7 nanoseconds a level.
        if let Form::Materialized = self.form {
            return self.list.append(level, count);
        }
        if count > self.list.most() - LevelStore::length(self) {
            return Err(Refusal::NoRoom);
        }
        if count == 0 {
            return Ok(());
        }
        match self.form {
            Form::Uniform(value, held) if value == level => {
                self.form = Form::Uniform(value, held + count);
            }
            Form::Uniform(value, held) => {
                self.materialize(value, held);
                self.list.append(level, count)?;
            }
            _ => self.form = Form::Uniform(level, count),
        }
        Ok(())
    }

    // As a store's `put`, for callers who ask for the form: it says the form too.
    pub fn put(&mut self, place: u32, level: i16) -> Result<(), Refusal>
        ensures levels { Puts data_meaning self.old self.new place level result }
        ensures form { Written self.new result }
    {
        if place >= LevelStore::length(self) {
            return Err(Refusal::Place);
        }
        if let Form::Uniform(value, held) = self.form {
            self.materialize(value, held);
        }
        self.list.put(place, level)
    }
}

impl<'a> LevelStore for LevelData<'a> {
    ghost use Rattle.level_data.specs.Data.{data_meaning, data_bounded, DataStands};

    ghost meaning = { data_meaning };

    // Its type says all.
    ghost in_order = { λ _. Unit {0} };

    ghost stands = { DataStands };

    ghost bounded = { data_bounded };

    fn length(&self) -> u32 {
        match self.form {
            Form::Empty => 0,
            Form::Uniform(_, count) => count,
            Form::Materialized => self.list.length(),
        }
    }

    fn most(&self) -> u32 {
        self.list.most()
    }

    fn at(&self, place: u32) -> Result<i16, Refusal> {
        match self.form {
            Form::Uniform(level, count) if place < count => Ok(level),
            Form::Materialized => self.list.at(place),
            _ => Err(Refusal::Place),
        }
    }

    fn start(&self) -> Spot {
        self.seek(0)
    }

    fn seek(&self, place: u32) -> Spot {
        Spot {
            index: 0,
            offset: place,
        }
    }

    fn next(&self, spot: &mut Spot) -> Option<i16> {
        let level = self.at(spot.offset).ok()?;
        spot.offset += 1;
        Some(level)
    }

    fn append(&mut self, level: i16, count: u32) -> Result<(), Refusal> {
        LevelData::append(self, level, count)
    }

    fn put(&mut self, place: u32, level: i16) -> Result<(), Refusal> {
        LevelData::put(self, place, level)
    }

    fn cut_back(&mut self, kept: u32) -> Result<(), Refusal> {
        if kept > self.length() {
            return Err(Refusal::Place);
        }
        match self.form {
            Form::Uniform(value, _) if kept > 0 => self.form = Form::Uniform(value, kept),
            Form::Materialized => self.list.cut_back(kept)?,
            _ => self.form = Form::Empty,
        }
        Ok(())
    }
}
