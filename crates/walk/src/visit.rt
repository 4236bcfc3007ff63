// A slot to visit, and the levels that it is handed.
#[derive(Debug, Clone, Copy, PartialEq, Eq)]
pub struct Visit {
    pub node: usize,
    pub slot: usize,
    pub rep: usize,
    pub def: usize,
}

// The elements of a list that are still to visit, by their node and definition level.
#[derive(Debug, Clone, Copy, PartialEq, Eq, Default)]
pub struct Frame {
    pub node: usize,
    pub next: usize,
    pub end: usize,
    pub def: usize,
}

// A run of equal entries, with the leaf slots from the first one on if they are present.
#[derive(Debug, Clone, Copy, PartialEq, Eq)]
pub struct Stretch {
    pub rep: usize,
    pub def: usize,
    pub count: usize,
    pub first: Option<usize>,
}

impl Stretch {
    ghost use Rattle.std.specs.Prelude.{◌≡◌, ◌≤◌, length};
    ghost use Rattle.walk.specs.Frames.{slots_from};

    // How many values it has.
    pub fn values(&self) -> usize
        ensures count { result ≡ length (slots_from self.now.first self.now.count) }
        ensures most { result ≤ self.now.count }
    {
        match self.first {
            Some(_) => self.count,
            None => 0,
        }
    }
}

// What a slot is.
#[derive(Debug, Clone, Copy, PartialEq, Eq)]
pub enum Look {
    // the end of an entry
    Ends(Stretch),
    // a struct: the slot below it
    Passes(Visit),
    // a list: its first element, and the others
    Enters(Visit, Frame),
}
