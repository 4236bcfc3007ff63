// What a line of a job says.
#![tactic(auto)]

pub mod text;

use table::Node;

// Rows from..to; a Range of std is not Copy, and cannot be shown.
#[derive(Clone, Copy, PartialEq, Eq, Debug)]
pub struct Rows {
    pub from: u64,
    pub to: u64,
}

// What the program is to do, and to print.
#[derive(Clone, Copy, PartialEq, Eq, Debug)]
pub enum Action {
    Survey,
    Measure { leaf: u64, rows: Rows },
}

#[derive(PartialEq, Eq, Debug, Drop)]
pub struct NamedNode {
    pub node: Node,
    pub name: Option<String>,
}

#[derive(PartialEq, Eq, Debug, Drop)]
pub enum Statement {
    Node(NamedNode),
    Validity(Vec<u8>),
    Offsets32(Vec<i32>),
    Offsets64(Vec<i64>),
    Clear,
    Do(Action),
}
