ghost use Rattle.std.specs.Prelude.{◌≡◌, ◌+◌, ◌-◌, ◌^◌, ◌<◌, ◌≤◌, length, drop};
ghost use Rattle.reading.specs.Along.{inside, along};
ghost use Rattle.reading.specs.Reading.{node_on};
ghost use Rattle.tally.specs.Answer.{SizedIn};
ghost use Rattle.tally.specs.Reaching.{HeldBelow};

use crate::measured::Measured;
use crate::range::SlotRange;
use reading::{Branch, Validity, ones_below};
use table::{Kind, PathNode};

// Whether only structs lie between node k and its leaf, so that each of its slots is one entry.
pub fn is_flat(nodes: &[PathNode], k: usize) -> bool {
    let end = nodes.iter().skip(k).find(|n| n.kind != Kind::Struct);
    end.is_some_and(|n| n.kind == Kind::Leaf)
}

// Which of the slots i..i + count have a value below node k; a null in a required node matters only where all above it are valid.
// By a first slot and a count, as `valid_bits` asks for them: a `SlotRange` is no plainer, since both uses would take its length again.
fn values_below(b: &Branch, k: usize, i: usize, count: usize) -> Option<u64>
    requires node { k < length (along b.now) }
    requires few { count ≤ Validity.TOGETHER }
    requires range { i + count ≤ (node_on (along b.now) k).slots }
    ensures { HeldBelow (inside b.now) (drop k (along b.now)) i count (2 ^ count - 1) result }
{
    let mut live = ones_below(count);
    // by number: `Branch` asks by it
    for at in k..b.nodes.len() {
        let n = b.nodes[at];
        let valid = live & b.valid_bits(at, i, count);
        if !n.nullable && valid != live {
            return None;
        }
        match n.kind {
            Kind::Leaf => return Some(valid),
            Kind::Struct => live = valid,
            // lists are not counted here
            _ => return None,
        }
    }
    unreachable!()
}

// The slots of a node below which there is no list: each is one entry, and up to 56 are counted at once.
// Never inlined, since its loop is faster with the registers for itself.
#[inline(never)]
pub fn tally_flat(slots: SlotRange) -> Option<Measured>
    ensures { SizedIn slots.entry result }
{
    let mut i = slots.from;
    let mut values: usize = 0;
    // no `step_by`: measured, leaves take a fifth longer
    while i < slots.to {
        let count = Validity::TOGETHER.min(slots.to - i);
        let held = values_below(slots.branch, slots.node, i, count)?;
        values += held.count_ones() as usize;
        i += count;
    }
    Some(Measured {
        entries: slots.to - slots.from,
        values,
    })
}
