ghost use Rattle.std.specs.Prelude.{◌≡◌, ◌<◌, ◌≤◌, ◌++◌, length, drop};
ghost use Rattle.rows.specs.Rows.{most, deep};
ghost use Rattle.table.specs.Table.{line};
ghost use Rattle.table.specs.Paths.{path_node, nodes_to, path as steps, leaf_answer, path_answer, locate_answer};

use crate::buffers::surveyed;
use crate::node::{Kind, Node, Source};
use crate::order::Ordered;
use crate::refusal::Refusal;
use crate::rules::Table;

// A node on the path to a leaf: its number in the table, its kind, and the numbers of its row there.
#[derive(Clone, Copy, Default)]
pub struct PathNode {
    pub number: usize,
    pub kind: Kind,
    pub nullable: bool,
    pub slots: usize,
    pub size: usize,
    pub validity: Option<usize>,
    pub offsets: usize,
    pub sizes: usize,
}

// The path from the root to a leaf: its nodes in the first `count` places, and the leaf's greatest levels.
// An array with a count beside it: there is no heap here, and these fields are what `path_to` and `locate` promise.
#[derive(Clone, Copy)]
pub struct LeafPath {
    pub nodes: [PathNode; 8],
    pub count: usize,
    pub definition: u8,
    pub repetition: u8,
}

// A node of a table as it stands on a path; a kind that is not known counts as a leaf.
fn on_path(nodes: &[Node], i: usize) -> PathNode
    requires { i < length nodes.now }
    ensures { result ≡ path_node nodes.now i }
{
    let node = nodes[i];
    PathNode {
        number: i,
        kind: Kind::try_from(node.kind).unwrap_or(Kind::Leaf),
        nullable: node.nullable,
        slots: node.slots as usize,
        size: node.size as usize,
        validity: node.validity.map(|start| start as usize),
        offsets: node.offsets as usize,
        sizes: node.sizes as usize,
    }
}

// Writes the nodes from the root to a node into the first places, and answers how many they are.
fn lead_to(ordered: Ordered, node: usize, path: &mut [PathNode; 8]) -> usize
    requires within { node < ordered.count }
    requires short { length (line ordered.nodes.now node) ≤ 8 }
    ensures path { path.new ≡ nodes_to ordered.entry.nodes.now node ++ drop result path.old }
    ensures count { result ≡ length (line ordered.entry.nodes.now node) }
{
    let above = if node == 0 {
        0
    } else {
        lead_to(ordered, ordered.nodes[node].parent as usize, path)
    };
    path[above] = on_path(ordered.nodes, node);
    above + 1
}

// The greatest definition and repetition levels of a path.
fn greatest_levels(path: &[PathNode]) -> (u8, u8)
    requires { length path.now ≤ 8 }
    ensures definition { result.0 ≡ most (steps path.now) 0 }
    ensures repetition { result.1 ≡ deep (steps path.now) 0 }
{
    let mut definition = 0;
    let mut repetition = 0;
    for node in path {
        definition += u8::from(node.nullable);
        match node.kind {
            Kind::Leaf => return (definition, repetition),
            Kind::Struct => {}
            _ => {
                definition += 1;
                repetition += 1;
            }
        }
    }
    (definition, repetition)
}

// The path to a leaf of a table that meets its rules.
fn path_in(table: Table, leaf: usize) -> Result<LeafPath, Refusal>
    ensures { result ≡ leaf_answer table.entry.nodes.now leaf }
{
    if leaf >= table.nodes.len() || table.nodes[leaf].kind != Kind::Leaf as u8 {
        return Err(Refusal::NotALeaf);
    }
    let mut nodes = [PathNode::default(); 8];
    let count = lead_to(table.ordered(), leaf, &mut nodes);
    let (definition, repetition) = greatest_levels(&nodes[..count]);
    Ok(LeafPath {
        nodes,
        count,
        definition,
        repetition,
    })
}

// The path to a leaf of a table, if the table meets its rules.
pub fn path_to(nodes: &[Node], leaf: usize) -> Result<LeafPath, Refusal>
    ensures { result ≡ path_answer nodes.now leaf }
{
    path_in(Table::new(nodes)?, leaf)
}

// The same of a source, if it meets all rules.
pub fn locate(source: &Source, leaf: usize) -> Result<LeafPath, Refusal>
    ensures { result ≡ locate_answer source.now leaf }
{
    path_in(surveyed(source)?, leaf)
}
