ghost use Rattle.std.specs.Prelude.{◌≡◌, ◌+◌, ◌-◌, ◌*◌, ◌<◌, ◌≤◌, map, length};
ghost use Rattle.reading.specs.Along.{inside, along};
ghost use Rattle.reading.specs.Reading.{node_on};
ghost use Rattle.tally.specs.Reaching.{Repeats, Rose, Reached, ReachedIn, SameSized, AllValid};

use crate::range::SlotRange;
use crate::reach::Reach;
use reading::{Branch, Offset, Slot};
use table::Kind;

// The child slots of neighbouring lists by their offsets, one more than lists, if these rise: one range, and an entry for each empty list.
fn rising<T: Offset>(offsets: &[T], most: usize) -> Option<Reach>
    requires { 0 < length offsets.now }
    ensures { Rose (map T.Offset.value offsets.now) most result }
{
    let first: i64 = offsets[0].into();
    let lists = &offsets[1..];
    let mut last = first;
    // a flag, since the loop is slower where it may end early
    let mut rises = first >= 0;
    let mut bare: usize = 0;
    for &offset in lists {
        let next: i64 = offset.into();
        rises &= last <= next;
        bare += usize::from(next == last);
        last = next;
    }
    if !rises || last as usize > most {
        return None;
    }
    Some(Reach {
        slots: lists.len(),
        from: first as usize,
        to: last as usize,
        bare,
    })
}

// The lists from..to of one size: one range, or an entry each where the size is 0.
fn same_sized(size: usize, from: usize, to: usize, most: usize) -> Option<Reach>
    requires order { from ≤ to }
    requires fits { to * size ≤ usize.MAX }
    ensures { SameSized size from (to - from) most result }
{
    let lists = to - from;
    if to * size > most {
        return None;
    }
    let bare = if size == 0 { lists } else { 0 };
    Some(Reach {
        slots: lists,
        from: from * size,
        to: to * size,
        bare,
    })
}

// Some slots that are all valid.
fn valid_reach(slots: SlotRange) -> Option<Reach>
    requires some { slots.from < slots.to }
    requires valid { AllValid (inside slots.branch.now) (node_on (along slots.branch.now) slots.node) slots.from (slots.to - slots.from) }
    ensures { ReachedIn slots.entry result }
{
    let b = slots.branch;
    let n = b.nodes[slots.node];
    match n.kind {
        Kind::Struct => Some(Reach {
            slots: slots.to - slots.from,
            from: slots.from,
            to: slots.to,
            bare: 0,
        }),
        Kind::List => rising(
            &b.offsets32[n.offsets + slots.from..n.offsets + slots.to + 1],
            b.nodes[slots.node + 1].slots,
        ),
        Kind::LargeList => rising(
            &b.offsets64[n.offsets + slots.from..n.offsets + slots.to + 1],
            b.nodes[slots.node + 1].slots,
        ),
        Kind::FixedSizeList => same_sized(
            n.size,
            slots.from,
            slots.to,
            b.nodes[slots.node + 1].slots,
        ),
        _ => None,
    }
}

// The first of some slots and those behind it that are valid or null as it is.
fn alike_reach(slots: SlotRange) -> Option<Reach>
    requires { slots.from < slots.to }
    ensures { ReachedIn slots.entry result }
{
    let b = slots.branch;
    let c = b.same_from(slots.node, slots.from, slots.to);
    if b.is_valid(slots.node, slots.from) {
        return valid_reach(SlotRange {
            branch: b,
            node: slots.node,
            from: slots.from,
            to: slots.from + c,
        });
    }
    b.nodes[slots.node].nullable.then_some(Reach {
        slots: c,
        from: 0,
        to: 0,
        bare: c,
    })
}

// The first of some slots of a list and those behind it whose elements follow one another, slot by slot.
fn following_reach(slots: SlotRange) -> Option<Reach>
    requires child { slots.node + 1 < length (along slots.branch.now) }
    requires list { Repeats (node_on (along slots.branch.now) slots.node).kind }
    requires order { slots.from < slots.to }
    ensures { ReachedIn slots.entry result }
{
    let nullable = slots.branch.nodes[slots.node].nullable;
    let mut span: Option<(usize, usize)> = None;
    let mut bare: usize = 0;
    // by number: `Branch` asks by it
    for i in slots.from..slots.to {
        match slots.branch.slot(slots.node, i) {
            Slot::Wrong => return None,
            Slot::Null if !nullable => return None,
            // in an arm of its own: the proof has no name for which slot it is where the two share one
            Slot::Null => bare += 1,
            Slot::Empty => bare += 1,
            Slot::Spanned((start, stop)) => match span {
                None => span = Some((start, stop)),
                Some((first, last)) if last == start => span = Some((first, stop)),
                Some(_) => return Some(Reach::over(i - slots.from, span, bare)),
            },
        }
    }
    Some(Reach::over(slots.to - slots.from, span, bare))
}

// Some of the slots of a node that is no leaf, the first of them among these.
pub fn next_reach(slots: SlotRange) -> Option<Reach>
    requires { slots.from < slots.to }
    ensures { ReachedIn slots.entry result }
{
    match slots.branch.nodes[slots.node].kind {
        Kind::ListView | Kind::LargeListView => following_reach(slots),
        _ => alike_reach(slots),
    }
}
