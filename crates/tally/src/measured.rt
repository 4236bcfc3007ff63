// How many entries and values some rows, or some slots of a node, have.
#[derive(Debug, Clone, Copy, PartialEq, Eq, Default)]
pub struct Measured {
    pub entries: usize,
    pub values: usize,
}
