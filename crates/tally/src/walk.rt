ghost use Rattle.std.specs.Prelude.{◌≤◌};
ghost use Rattle.tally.specs.Answer.{slots_trace, Added, Tallied, SizedIn};

use crate::flat::{is_flat, tally_flat};
use crate::lists::next_reach;
use crate::measured::Measured;
use crate::range::SlotRange;

// The most entries that a range may have.
pub const MOST_ENTRIES: usize = 2_147_483_647;

// What is counted so far, with the bare entries of some slots more and what lies below these; too many entries are not counted.
fn with_more(had: Measured, bare: usize, below: Measured) -> Option<Measured>
    requires few { had.entries ≤ MOST_ENTRIES }
    requires had { had.values ≤ had.entries }
    requires below { below.values ≤ below.entries }
    ensures { Added had bare below result }
{
    let entries = had.entries.checked_add(bare)?.checked_add(below.entries)?;
    if entries > MOST_ENTRIES {
        return None;
    }
    Some(Measured {
        entries,
        values: had.values + below.values,
    })
}

// Some slots of a node: neighbouring ones at once, by the range of slots below them.
fn tally_at(slots: SlotRange) -> Option<Measured>
    ensures { SizedIn slots.entry result }
{
    let branch = slots.branch;
    let node = slots.node;
    let to = slots.to;
    if is_flat(branch.nodes, node) {
        return tally_flat(slots);
    }
    let flat_below = is_flat(branch.nodes, node + 1);
    let mut from = slots.from;
    let mut all = Measured::default();
    // how far each turn goes is what its reach says
    while from < to {
        let x = next_reach(SlotRange {
            branch,
            node,
            from,
            to,
        })?;
        let below = if x.from == x.to {
            Measured::default()
        } else {
            let below = SlotRange {
                branch,
                node: node + 1,
                from: x.from,
                to: x.to,
            };
            if flat_below {
                tally_flat(below)?
            } else {
                tally_at(below)?
            }
        };
        all = with_more(all, x.bare, below)?;
        from += x.slots;
    }
    Some(all)
}

// The entries and values of some slots, if they meet no fault and have at most 2,147,483,647 entries; `None` says nothing.
pub fn tally(slots: SlotRange) -> Option<Measured>
    ensures { Tallied (slots_trace slots.entry) result }
{
    tally_at(slots)
}
