ghost use Rattle.std.specs.Prelude.{◌≡◌, ◌<◌, true, length, Err, MatchResult};
ghost use Rattle.table.specs.Table.{node_at, Rising};
ghost use Rattle.table.specs.Buffers.{child_fits, reaches, validity_fits, offsets_fit, node_held, buffers_hold, survey_answer};

use crate::node::{Kind, Node, Source};
use crate::refusal::Refusal;
use crate::rules::Table;

fn is_long_enough(start: u64, need: u64, room: u128) -> bool
    ensures { result ≡ reaches start need room }
{
    u128::from(start) + u128::from(need) <= room
}

fn validity_fits(start: Option<u64>, slots: u32, bytes: &[u8]) -> bool
    ensures { result ≡ validity_fits start slots bytes.now }
{
    match start {
        None => true,
        Some(start) => is_long_enough(start, slots as u64, 8 * bytes.len() as u128),
    }
}

// Whether the offsets and sizes that a node of some kind needs are there.
fn offsets_fit(kind: Option<Kind>, node: Node, narrow: usize, wide: usize) -> bool
    ensures { result ≡ offsets_fit kind node narrow wide }
{
    let slots = node.slots as u64;
    let room = match kind {
        Some(Kind::List | Kind::ListView) => narrow as u128,
        _ => wide as u128,
    };
    match kind {
        Some(Kind::List | Kind::LargeList) => is_long_enough(node.offsets, slots + 1, room),
        Some(Kind::ListView | Kind::LargeListView) => {
            is_long_enough(node.offsets, slots, room) && is_long_enough(node.sizes, slots, room)
        }
        _ => true,
    }
}

// Whether a child has the slots that its parent asks for.
fn child_fits(kind: Option<Kind>, up: Node, node: Node) -> bool
    ensures { result ≡ child_fits kind up node }
{
    match kind {
        Some(Kind::Struct) => node.slots == up.slots,
        Some(Kind::FixedSizeList) => up.size as u64 * up.slots as u64 <= node.slots as u64,
        _ => true,
    }
}

// Whether a node meets the rules of slot counts and buffers.
// The clauses say which nodes: a source holds a slice of its own, no plainer as a type of both.
fn is_held(source: &Source, i: usize, node: Node) -> bool
    requires within { i < length source.now.nodes.now }
    requires rising { Rising source.now.nodes.now (length source.now.nodes.now) }
    requires node { node ≡ node_at source.now.nodes.now i }
    ensures { result ≡ node_held source.now i }
{
    if node.slots > 2147483647 {
        return false;
    }
    if i > 0 {
        let up = source.nodes[node.parent as usize];
        if !child_fits(Kind::try_from(up.kind).ok(), up, node) {
            return false;
        }
    }
    if !validity_fits(node.validity, node.slots, source.validity) {
        return false;
    }
    offsets_fit(
        Kind::try_from(node.kind).ok(),
        node,
        source.offsets32.len(),
        source.offsets64.len(),
    )
}

// The table of a source, if the source meets all rules.
pub(crate) fn surveyed<'a>(source: &Source<'a>) -> Result<Table<'a>, Refusal>
    ensures { MatchResult result (λ table. (table.nodes.now ≡ source.now.nodes.now) × (buffers_hold source.now ≡ true)) (λ refusal. Err refusal ≡ survey_answer source.now) }
{
    let table = Table::new(source.nodes)?;
    for (i, node) in source.nodes.iter().enumerate() {
        if !is_held(source, i, *node) {
            return Err(Refusal::Buffers);
        }
    }
    Ok(table)
}

// How many leaves a source has, if it meets all rules.
pub fn survey(source: &Source) -> Result<u32, Refusal>
    ensures { result ≡ survey_answer source.now }
{
    Ok(surveyed(source)?.leaves)
}
