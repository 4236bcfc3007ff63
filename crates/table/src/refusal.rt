ghost use Rattle.std.specs.Prelude.{◌≡◌, Some};
ghost use Rattle.table.specs.Kinds.{code_of, refusal_name};
ghost use Rattle.table.specs.declared.refusal.Refusal.TheVariants.{Reached};

use std::error::Error;
use std::fmt;

// What is wrong with a slot that a walk has reached.
#[derive(Clone, Copy, PartialEq, Eq, Debug)]
pub enum Cause {
    // a null in a required node
    RequiredNull,
    // a span that is negative, falling or past its child
    WrongSpan,
}

// Where a walk met something wrong: the node's number, its slot, and the root slot of the row.
#[derive(Clone, Copy, PartialEq, Eq, Debug)]
pub struct Fault {
    pub cause: Cause,
    pub node: usize,
    pub slot: usize,
    pub row: usize,
}

// Why a call is refused.
#[derive(Clone, Copy, PartialEq, Eq, Debug)]
pub enum Refusal {
    Table,
    Buffers,
    NotALeaf,
    RowRange,
    Reached(Fault),
    TooManyEntries,
}

impl From<Fault> for Refusal {
    ghost from_gives = { λ fault refusal. refusal ≡ Reached fault };

    fn from(fault: Fault) -> Refusal {
        Self::Reached(fault)
    }
}

// The public code of a refusal.
impl From<Refusal> for u8 {
    ghost from_gives = { λ refusal code. code ≡ code_of refusal };

    fn from(refusal: Refusal) -> u8 {
        match refusal {
            Refusal::Table => 1,
            Refusal::Buffers => 2,
            Refusal::NotALeaf => 3,
            Refusal::RowRange => 4,
            Refusal::Reached(fault) => match fault.cause {
                Cause::RequiredNull => 5,
                Cause::WrongSpan => 6,
            },
            Refusal::TooManyEntries => 12,
        }
    }
}

// By hand: a derived Display says nothing of what it writes.
impl fmt::Display for Refusal {
    ghost output = { λ refusal. Some (refusal_name refusal) };

    fn fmt<W: fmt::Write>(&self, f: &mut fmt::Formatter<W>) -> fmt::Result {
        f.write_str(match self {
            Refusal::Table => "table",
            Refusal::Buffers => "buffers",
            Refusal::NotALeaf => "not-a-leaf",
            Refusal::RowRange => "row-range",
            Refusal::Reached(fault) => match fault.cause {
                Cause::RequiredNull => "required-null",
                Cause::WrongSpan => "span",
            },
            Refusal::TooManyEntries => "too-many-entries",
        })
    }
}

impl Error for Refusal {}
