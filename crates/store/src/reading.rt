// Where a reading in order stands; what the two numbers say is the store's own matter.
#[derive(Clone, Copy, PartialEq, Eq, Debug)]
pub struct Spot {
    pub index: u32,
    pub offset: u32,
}
