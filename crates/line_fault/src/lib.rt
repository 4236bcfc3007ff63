// What is wrong with a line of a job.
#![tactic(auto)]

ghost use Rattle.std.specs.Prelude.{◌≡◌, Some};
ghost use Rattle.line_fault.specs.Keys.{key_text};
ghost use Rattle.line_fault.specs.declared.LineFault.TheVariants.{Memory};

use std::alloc::{AllocError, AllocFailed};
use std::fmt;
use thiserror::Error;

// What a part of a statement is called.
#[derive(Clone, Copy, Debug, PartialEq, Eq)]
pub enum Key {
    Leaf,
    Rows,
    Parent,
    Slots,
    Size,
    Validity,
    Offsets,
    Sizes,
    Name,
    Kind,
    Offset,
}

impl Key {
    pub fn word(self) -> &'static str
        ensures { result.now ≡ key_text self }
    {
        match self {
            Key::Leaf => "leaf",
            Key::Rows => "rows",
            Key::Parent => "parent",
            Key::Slots => "slots",
            Key::Size => "size",
            Key::Validity => "validity",
            Key::Offsets => "offsets",
            Key::Sizes => "sizes",
            Key::Name => "name",
            Key::Kind => "the kind",
            Key::Offset => "an offset",
        }
    }
}

impl fmt::Display for Key {
    ghost output = { λ key. Some (key_text key) };

    fn fmt<W: fmt::Write>(&self, f: &mut fmt::Formatter<W>) -> fmt::Result {
        f.write_str(self.word())
    }
}

// It holds no text of the line: who shows it shows the line beside it.
#[derive(Clone, Copy, Debug, PartialEq, Eq, Error)]
pub enum LineFault {
    #[error("no statement begins with this word")]
    UnknownStatement,
    #[error("word {0} is no part of this statement")]
    Misplaced(usize),
    #[error("{0} is missing")]
    Missing(Key),
    #[error("{0} is given twice")]
    Twice(Key),
    #[error("{0} is not a number")]
    NotANumber(Key),
    #[error("{0} is too large")]
    TooLarge(Key),
    #[error("{0} is not a range FROM..TO")]
    NotARange(Key),
    #[error("{0} is not UTF-8 text")]
    NotText(Key),
    #[error("a byte is not two hexadecimal digits")]
    NotAByte,
    #[error("a node is neither required nor nullable")]
    NotNullability,
    #[error("there is not enough memory")]
    Memory,
}

// By hand: thiserror's `#[from]` would keep the error that it comes from, and has no clause.
impl From<AllocError> for LineFault {
    ghost from_gives = { λ _ fault. fault ≡ Memory };

    fn from(_e: AllocError) -> LineFault {
        LineFault::Memory
    }
}

impl<T: Drop> From<AllocFailed<T>> for LineFault {
    ghost from_gives = { λ _ fault. fault ≡ Memory };

    fn from(_e: AllocFailed<T>) -> LineFault {
        Self::Memory
    }
}
