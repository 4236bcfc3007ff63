ghost use Rattle.std.specs.Prelude.{◌≡◌, Some};
ghost use Rattle.table.specs.Kinds.{NumbersKind, kind_word};

use std::fmt;

// One node of a table, as it is given: plain numbers, none of them checked yet.
// Kinds and parents stay numbers: `survey` has to be able to refuse a wrong one, which no enum could hold.
#[derive(Clone, Copy, PartialEq, Eq, Debug)]
pub struct Node {
    pub parent: u8,
    pub kind: u8,
    pub nullable: bool,
    pub slots: u32,
    pub size: u32,
    pub validity: Option<u64>,
    pub offsets: u64,
    pub sizes: u64,
}

// The parent of a root.
pub const NO_PARENT: u8 = 255;

// A node table and the three buffers that its nodes read.
#[derive(Clone, Copy)]
pub struct Source<'a> {
    pub nodes: &'a [Node],
    pub validity: &'a [u8],
    pub offsets32: &'a [i32],
    pub offsets64: &'a [i64],
}

// What a node is.
#[derive(Clone, Copy, PartialEq, Eq, Debug, Default)]
pub enum Kind {
    #[default]
    Leaf,
    Struct,
    List,
    LargeList,
    FixedSizeList,
    ListView,
    LargeListView,
}

// A number that no kind has.
#[derive(Clone, Copy, PartialEq, Eq, Debug)]
pub struct UnknownKind {
    pub number: u8,
}

impl TryFrom<u8> for Kind {
    type Error = UnknownKind;

    ghost try_from_gives = { NumbersKind };

    fn try_from(number: u8) -> Result<Kind, UnknownKind> {
        match number {
            0 => Ok(Kind::Leaf),
            1 => Ok(Kind::Struct),
            2 => Ok(Kind::List),
            3 => Ok(Kind::LargeList),
            4 => Ok(Kind::FixedSizeList),
            5 => Ok(Kind::ListView),
            6 => Ok(Kind::LargeListView),
            _ => Err(UnknownKind { number }),
        }
    }
}

impl Kind {
    // All kinds, in the order of their numbers.
    pub const ALL: [Kind; 7] = [
        Kind::Leaf,
        Kind::Struct,
        Kind::List,
        Kind::LargeList,
        Kind::FixedSizeList,
        Kind::ListView,
        Kind::LargeListView,
    ];

    // Its word.
    pub fn word(self) -> &'static str
        ensures { result.now ≡ kind_word self }
    {
        match self {
            Kind::Leaf => "leaf",
            Kind::Struct => "struct",
            Kind::List => "list",
            Kind::LargeList => "large_list",
            Kind::FixedSizeList => "fixed_size_list",
            Kind::ListView => "list_view",
            Kind::LargeListView => "large_list_view",
        }
    }
}

// By hand, as every Display that a clause speaks of: a derived one says nothing of what it writes.
impl fmt::Display for Kind {
    ghost output = { λ kind. Some (kind_word kind) };

    fn fmt<W: fmt::Write>(&self, f: &mut fmt::Formatter<W>) -> fmt::Result {
        f.write_str(self.word())
    }
}
