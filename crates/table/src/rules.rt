ghost use Rattle.std.specs.Prelude.{◌≡◌, ◌<◌, true, false, length, MatchResult};
ghost use Rattle.table.specs.Kinds.{kind_of};
ghost use Rattle.table.specs.Table.{line, children, kind_fits, table_holds, leaves as leaves_of, shape_answer};
ghost use Rattle.table.specs.declared.refusal.Refusal.{Refusal as Why};

use crate::node::{Kind, Node};
use crate::order::Ordered;
use crate::refusal::Refusal;

// A table that meets the rules of a table, and how many leaves it has.
#[derive(Clone, Copy)]
pub struct Table<'a> {
    pub nodes: &'a [Node],
    pub leaves: u32,
    pub ghost holds: { table_holds nodes.now ≡ true },
    pub ghost counted: { leaves ≡ leaves_of nodes.now },
}

fn count_children(nodes: &[Node], of: usize) -> usize
    ensures { result ≡ children nodes.now of }
{
    let mut count = 0;
    // a sum: `filter` and `count` branch at each node, which takes twice the instructions
    for node in nodes {
        count += usize::from(node.parent as usize == of);
    }
    count
}

fn count_leaves(nodes: &[Node]) -> usize
    ensures { result ≡ leaves_of nodes.now }
{
    nodes
        .iter()
        .filter(|node| node.kind == Kind::Leaf as u8)
        .count()
}

// Whether a node meets the rules of its kind.
fn fits(ordered: Ordered, i: usize, node: Node) -> bool
    requires { i < ordered.count }
    ensures { result ≡ kind_fits (kind_of node.kind) node.size (children ordered.entry.nodes.now i) (length (line ordered.entry.nodes.now i)) }
{
    let Ok(kind) = Kind::try_from(node.kind) else {
        return false;
    };
    let children = count_children(ordered.nodes, i);
    match kind {
        Kind::Leaf => children == 0 && ordered.depth(i) <= 8,
        Kind::Struct => true,
        Kind::FixedSizeList => children == 1 && node.size <= 65535,
        _ => children == 1,
    }
}

impl<'a> Table<'a> {
    // Nodes as a table, if they meet the rules of a table.
    pub fn new(nodes: &'a [Node]) -> Result<Table<'a>, Refusal>
        ensures { MatchResult result (λ table. table.nodes.now ≡ nodes.now) (λ refusal. (refusal ≡ Why.Table) × (table_holds nodes.now ≡ false)) }
    {
        if nodes.is_empty() || nodes.len() > 64 {
            return Err(Refusal::Table);
        }
        let mut ordered = Ordered::none(nodes);
        for (i, node) in nodes.iter().enumerate() {
            let Some(more) = ordered.extended() else {
                return Err(Refusal::Table);
            };
            if !fits(more, i, *node) {
                return Err(Refusal::Table);
            }
            ordered = more;
        }
        Ok(Table {
            nodes,
            leaves: count_leaves(nodes) as u32,
        })
    }

    // Its nodes, all of them in depth-first order.
    pub fn ordered(self) -> Ordered<'a>
        ensures nodes { result.nodes.now ≡ self.entry.nodes.now }
        ensures count { result.count ≡ length self.entry.nodes.now }
    {
        Ordered {
            nodes: self.nodes,
            count: self.nodes.len(),
        }
    }
}

// How many leaves a table has, if it meets the rules of a table.
pub fn shape(nodes: &[Node]) -> Result<u32, Refusal>
    ensures { result ≡ shape_answer nodes.now }
{
    Ok(Table::new(nodes)?.leaves)
}
