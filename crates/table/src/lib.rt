// Node tables over three buffers: the rules that they meet, and the path to a leaf.
#![tactic(auto)]

ghost use Rattle.table.specs.Paths.{LevelsAreSmall};
ghost use Rattle.table.specs.Unread.{NotRead, LinesAreAncestors};

mod buffers;
mod leaf_path;
mod node;
mod order;
mod refusal;
mod rules;

pub use buffers::survey;
pub use leaf_path::{LeafPath, PathNode, locate, path_to};
pub use node::{Kind, NO_PARENT, Node, Source, UnknownKind};
pub use refusal::{Cause, Fault, Refusal};
pub use rules::shape;

// A theorem: what stands in a field that its kind has no use for changes no answer of `survey`.
pub fn fields_not_read()
    ensures { NotRead }
{}

// A theorem: what depth-first order and path lengths are stated by, the line of a node, is the node and its ancestors.
pub fn lines_are_ancestors()
    ensures { LinesAreAncestors }
{}

// A theorem: a leaf of a table that meets the rules has a definition level of at most 15 and a repetition level of at most 7.
pub fn levels_are_small()
    ensures { LevelsAreSmall }
{}
