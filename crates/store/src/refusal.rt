// Why a call on a list or a store changed nothing.
ghost use Rattle.std.specs.Prelude.{◌≡◌, Some};
ghost use Rattle.store.specs.Codes.{code_of, name_of};

use std::error::Error;
use std::fmt;

#[derive(Clone, Copy, PartialEq, Eq, Debug)]
pub enum Refusal {
    // The place is at or past the length, or a cut would keep more than there is.
    Place,
    // The list would pass the most that it can hold.
    NoRoom,
}

// The number by which callers outside know it.
impl From<Refusal> for u8 {
    ghost from_gives = { λ refusal code. code ≡ code_of refusal };

    fn from(refusal: Refusal) -> u8 {
        match refusal {
            Refusal::Place => 20,
            Refusal::NoRoom => 21,
        }
    }
}

impl Refusal {
    // Its name in messages.
    pub fn name(self) -> &'static str
        ensures { result.now ≡ name_of self }
    {
        match self {
            Refusal::Place => "place",
            Refusal::NoRoom => "no-room",
        }
    }
}

// By hand, since a derived `Display` would have no contract.
impl fmt::Display for Refusal {
    ghost output = { λ refusal. Some (name_of refusal) };

    fn fmt<W: fmt::Write>(&self, f: &mut fmt::Formatter<W>) -> fmt::Result {
        f.write_str(self.name())
    }
}

impl Error for Refusal {}
