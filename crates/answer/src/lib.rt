// What an action answers, as text.
#![tactic(auto)]

ghost use Rattle.std.specs.Prelude.{◌≡◌};
ghost use Rattle.answer.specs.Reached.{reached_node};

use std::error::Error;
use std::fmt;
use table::{Fault, Refusal};
use walk::Measured;

#[derive(Clone, Copy, PartialEq, Eq, Debug)]
pub enum Answer {
    Leaves(u32),
    Measured(Measured),
}

// Why an action is refused, with the name of the node that the refusal speaks of, where that has one.
#[derive(Clone, Copy, PartialEq, Eq, Debug)]
pub struct Refused<'a> {
    pub refusal: Refusal,
    pub name: Option<&'a str>,
}

// The node that a refusal speaks of.
pub fn node_of(refusal: Refusal) -> Option<usize>
    ensures { result ≡ reached_node refusal }
{
    match refusal {
        Refusal::Reached(fault) => Some(fault.node),
        _ => None,
    }
}

impl fmt::Display for Answer {
    fn fmt<W: fmt::Write>(&self, f: &mut fmt::Formatter<W>) -> fmt::Result {
        match self {
            Answer::Leaves(leaves) => write!(f, "leaves={leaves}"),
            Answer::Measured(Measured { entries, values }) => {
                write!(f, "entries={entries} values={values}")
            }
        }
    }
}

// The number and name of the refusal, the place that it speaks of, and the name of the node there.
impl fmt::Display for Refused<'_> {
    fn fmt<W: fmt::Write>(&self, f: &mut fmt::Formatter<W>) -> fmt::Result {
        let Refused { refusal, name } = *self;
        write!(f, "{} {refusal}", u8::from(refusal))?;
        if let Refusal::Reached(
            Fault {
                node,
                slot,
                row,
                ..
            },
        ) = refusal
        {
            write!(f, " node={node} slot={slot} row={row}")?;
        }
        if let Some(name) = name {
            write!(f, " name={name}")?;
        }
        Ok(())
    }
}

impl Error for Refused<'_> {}

// How an action went.
#[derive(Clone, Copy, PartialEq, Eq, Debug)]
pub struct Outcome<'a>(pub Result<Answer, Refused<'a>>);

impl fmt::Display for Outcome<'_> {
    fn fmt<W: fmt::Write>(&self, f: &mut fmt::Formatter<W>) -> fmt::Result {
        match &self.0 {
            Ok(answer) => write!(f, "ok {answer}"),
            Err(refused) => write!(f, "refused {refused}"),
        }
    }
}
