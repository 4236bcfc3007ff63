// A list that grows over borrowed memory.
ghost use Rattle.std.specs.Prelude.{◌≡◌, ◌+◌, ◌-◌, ◌<◌, ◌≤◌, min, [], ◌∷◌, ◌++◌, length, take, drop, replicate, slice_range};
ghost use Rattle.store.specs.Reads.{Read};
ghost use Rattle.store.specs.declared.growing.TheConstants.{MOST};

use crate::refusal::Refusal;

// No list is longer, however much memory is lent.
pub const MOST: usize = 2147483647;

// The list is the first `count` elements of the memory. No heap is used here, so the memory is lent, and the count stands beside it.
#[derive(Drop)]
pub struct GrowingList<'a, T> {
    memory: &'a mut [T],
    count: u32,
    ghost within: { count ≤ min (length memory.now) MOST },
}

// Writes `x` into each place. The library's `fill` asks for a clone that cannot fail, which `Copy` does not say.
fn fill<T: Copy>(places: &mut [T], x: T)
    ensures { places.new ≡ replicate (length places.old) x }
{
    places.fill_with(|| x);
}

// Moves what stands from `place` up to `end` one place on, and writes `x` into the place.
fn shift_in<T: Copy>(memory: &mut [T], place: usize, end: usize, x: T)
    requires ordered { place ≤ end }
    requires within { end < length memory.old }
    ensures { memory.new ≡ take place memory.old ++ (x ∷ (slice_range memory.old place end ++ drop (end + 1) memory.old)) }
{
    memory[end] = x;
    memory[place..end + 1].rotate_right(1);
}

// Each call on a `&mut` says that the memory is still the one lent (`lender`): no type can say it for them.
impl<'a, T: Copy> GrowingList<'a, T> {
    ghost use Rattle.store.specs.Growing.{list_items, list_memory, list_most, Appended, Written, Inserted};

    // An empty list over `memory`, which is not written yet.
    pub fn new(memory: &'a mut [T]) -> GrowingList<'a, T>
        ensures items { list_items result ≡ [] }
        ensures memory { list_memory result ≡ memory.old }
        ensures lender { result.memory.ghost_name ≡ memory.entry.ghost_name }
    {
        GrowingList { memory, count: 0 }
    }

    pub fn most(&self) -> u32
        ensures { result ≡ list_most self.now }
    {
        self.memory.len().min(MOST) as u32
    }

    pub fn length(&self) -> u32
        ensures { result ≡ length (list_items self.now) }
    {
        self.as_slice().len() as u32
    }

    pub fn as_slice(&self) -> &[T]
        ensures { result.now ≡ list_items self.now }
    {
        &self.memory[..self.count as usize]
    }

    pub fn at(&self, place: u32) -> Result<T, Refusal>
        ensures { Read (list_items self.now) place result }
    {
        self.as_slice()
            .get(place as usize)
            .copied()
            .ok_or(Refusal::Place)
    }

    // Appends `x` `more` times.
    pub fn append(&mut self, x: T, more: u32) -> Result<(), Refusal>
        ensures list { Appended self.old self.new x more result }
        ensures lender { self.new.memory.ghost_name ≡ self.old.memory.ghost_name }
    {
        if more > self.most() - self.count {
            return Err(Refusal::NoRoom);
        }
        // a sum of wide numbers, which the compiler knows not to wrap: so runs of a known length are written without a loop
        let from = self.count as usize;
        fill(&mut self.memory[from..from + more as usize], x);
        self.count += more;
        Ok(())
    }

    pub fn put(&mut self, place: u32, x: T) -> Result<(), Refusal>
        ensures list { Written self.old self.new place x result }
        ensures lender { self.new.memory.ghost_name ≡ self.old.memory.ghost_name }
    {
        if place >= self.count {
            return Err(Refusal::Place);
        }
        self.memory[place as usize] = x;
        Ok(())
    }

    // Puts `x` before what stands at `place`, or at the end.
    pub fn insert(&mut self, place: u32, x: T) -> Result<(), Refusal>
        ensures list { Inserted self.old self.new place x result }
        ensures lender { self.new.memory.ghost_name ≡ self.old.memory.ghost_name }
    {
        let end = self.count;
        if place > end {
            return Err(Refusal::Place);
        }
        if end >= self.most() {
            return Err(Refusal::NoRoom);
        }
        shift_in(self.memory, place as usize, end as usize, x);
        self.count = end + 1;
        Ok(())
    }
}

impl<'a, T: Copy + Default> GrowingList<'a, T> {
    ghost use Rattle.store.specs.Growing.{Cut};

    // Keeps the first `kept` elements, and fills the places that it vacates with the default.
    pub fn cut_back(&mut self, kept: u32) -> Result<(), Refusal>
        ensures list { Cut T.is_default self.old self.new kept result }
        ensures lender { self.new.memory.ghost_name ≡ self.old.memory.ghost_name }
    {
        let to = self.count;
        if kept > to {
            return Err(Refusal::Place);
        }
        fill(&mut self.memory[kept as usize..to as usize], T::default());
        self.count = kept;
        Ok(())
    }
}
