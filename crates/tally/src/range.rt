ghost use Rattle.std.specs.Prelude.{◌<◌, ◌≤◌, length};
ghost use Rattle.reading.specs.Reading.{node_on};

use reading::Branch;

// The slots from..to of one node of a branch; those of the root, node 0, are the rows.
#[derive(Clone, Copy)]
pub struct SlotRange<'a> {
    pub branch: &'a Branch<'a>,
    pub node: usize,
    pub from: usize,
    pub to: usize,
    ghost on: { node < length branch.now.nodes.now },
    ghost order: { from ≤ to },
    ghost within: { to ≤ (node_on branch.now.nodes.now node).slots },
}
