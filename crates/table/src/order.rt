ghost use Rattle.std.specs.Prelude.{◌≡◌, ℕ, ◌+◌, ◌<◌, ◌≤◌, true, false, length, reverse, Some, MatchOption};
ghost use Rattle.table.specs.Table.{line, among, placed, Rising};

use crate::node::{NO_PARENT, Node};

// The first `count` nodes of a table: each but the root stands behind its parent.
#[derive(Clone, Copy)]
pub struct Ordered<'a> {
    pub nodes: &'a [Node],
    pub count: usize,
    pub ghost within: { count ≤ length nodes.now },
    pub ghost rising: { Rising nodes.now count },
}

// A node and its ancestors, from it up to the root.
#[derive(Drop)]
pub struct Ancestors<'a> {
    ordered: Ordered<'a>,
    next: Option<usize>,
    ghost below: { (i : ℕ) → next ≡ Some i → i < ordered.count },
}

impl<'a> Iterator for Ancestors<'a> {
    type Item = usize;

    ghost use Rattle.std.specs.Iterator.{YieldsFirst, item_count};
    ghost use Rattle.table.specs.Upward.{upward};

    ghost next_gives = { YieldsFirst upward };

    ghost remaining = { item_count upward };

    fn next(&mut self) -> Option<usize> {
        let node = self.next?;
        self.next = if node == 0 {
            None
        } else {
            Some(self.ordered.nodes[node].parent as usize)
        };
        Some(node)
    }
}

impl<'a> Ordered<'a> {
    ghost use Rattle.table.specs.Upward.{upward};

    // No node is known to be in order yet.
    pub fn none(nodes: &'a [Node]) -> Ordered<'a>
        ensures nodes { result.nodes.now ≡ nodes.now }
        ensures count { result.count ≡ 0 }
    {
        Ordered { nodes, count: 0 }
    }

    // A node and its ancestors, up to the root.
    pub fn ancestors(self, of: usize) -> Ancestors<'a>
        requires { of < self.count }
        ensures { upward result ≡ reverse (line self.entry.nodes.now of) }
    {
        Ancestors {
            ordered: self,
            next: Some(of),
        }
    }

    // How many nodes lead from the root to a node, both counted.
    pub fn depth(self, of: usize) -> usize
        requires { of < self.count }
        ensures { result ≡ length (line self.entry.nodes.now of) }
    {
        self.ancestors(of).count()
    }

    // Whether `above` is a node or one of its ancestors.
    fn is_above(self, above: usize, of: usize) -> bool
        requires { of < self.count }
        ensures { result ≡ among above (line self.entry.nodes.now of) }
    {
        let mut upward = self.ancestors(of);
        upward.any(|node| node == above)
    }

    // Whether the node behind these stands where depth-first order lets it.
    fn is_next_placed(self) -> bool
        requires { self.count < length self.nodes.now }
        ensures { result ≡ placed self.entry.nodes.now self.entry.count }
    {
        let parent = self.nodes[self.count].parent;
        if self.count == 0 {
            return parent == NO_PARENT;
        }
        self.is_above(parent as usize, self.count - 1)
    }

    // These and the node behind them, if that one stands where depth-first order lets it.
    pub fn extended(self) -> Option<Ordered<'a>>
        requires { self.count < length self.nodes.now }
        ensures { MatchOption result (placed self.entry.nodes.now self.entry.count ≡ false) (λ more. (placed self.entry.nodes.now self.entry.count ≡ true) × (more.nodes.now ≡ self.entry.nodes.now) × (more.count ≡ self.entry.count + 1)) }
    {
        if !self.is_next_placed() {
            return None;
        }
        Some(Ordered {
            nodes: self.nodes,
            count: self.count + 1,
        })
    }
}
