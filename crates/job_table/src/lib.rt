// The table and its buffers, as the statements give them. Where memory fails, all stays as it was.
#![tactic(auto)]

ghost use Rattle.std.specs.Prelude.{◌≡◌, is_ok, IfOk, option_copied, if◌then◌else◌};
ghost use Rattle.job_table.specs.Given.{contents, blank, with_node, name_at, after, Untouched, action_of};

use statement::{Action, NamedNode, Statement};
use std::alloc::{AllocError, Global};
use table::{Node, Source};

#[derive(Drop)]
pub struct Table {
    pub nodes: Vec<Node>,
    // the name of each node, in the order of the nodes: a map takes three times as long to put a name in
    pub names: Vec<Option<String>>,
    pub validity: Vec<u8>,
    pub offsets32: Vec<i32>,
    pub offsets64: Vec<i64>,
}

impl Table {
    pub fn new(heap: Global) -> Table
        ensures { contents result ≡ blank }
    {
        Table {
            nodes: Vec::new(heap),
            names: Vec::new(heap),
            validity: Vec::new(heap),
            offsets32: Vec::new(heap),
            offsets64: Vec::new(heap),
        }
    }

    pub fn add_node(&mut self, node: Node, name: Option<String>) -> Result<(), AllocError>
        ensures contents { contents self.new ≡ (if is_ok result then with_node node name (contents self.old) else contents self.old) }
        ensures validity { self.new.validity ≡ self.old.validity }
        ensures offsets32 { self.new.offsets32 ≡ self.old.offsets32 }
        ensures offsets64 { self.new.offsets64 ≡ self.old.offsets64 }
    {
        self.nodes.reserve(1)?;
        self.names.push(name)?;
        self.nodes.push_reserved(node);
        Ok(())
    }

    pub fn clear(&mut self)
        ensures { contents self.new ≡ blank }
    {
        self.names.clear();
        self.nodes.clear();
        self.validity.clear();
        self.offsets32.clear();
        self.offsets64.clear();
    }

    // Takes in what a statement gives; the action that it asks for is left to the caller.
    pub fn apply(&mut self, statement: Statement) -> Result<Option<Action>, AllocError>
        ensures action { IfOk result (λ action. action ≡ action_of statement) }
        ensures contents { contents self.new ≡ (if is_ok result then after statement (contents self.old) else contents self.old) }
        ensures untouched { Untouched statement self.old self.new }
    {
        match statement {
            Statement::Node(NamedNode { node, name }) => self.add_node(node, name)?,
            Statement::Validity(bytes) => self.validity.extend_from_slice(bytes.as_slice())?,
            Statement::Offsets32(offsets) => self.offsets32.extend_from_slice(offsets.as_slice())?,
            Statement::Offsets64(offsets) => self.offsets64.extend_from_slice(offsets.as_slice())?,
            Statement::Clear => self.clear(),
            Statement::Do(action) => return Ok(Some(action)),
        }
        Ok(None)
    }

    // The table and its buffers, lent.
    pub fn source(&self) -> Source<'_>
        ensures nodes { result.nodes.now ≡ self.now.nodes.items }
        ensures validity { result.validity.now ≡ self.now.validity.items }
        ensures offsets32 { result.offsets32.now ≡ self.now.offsets32.items }
        ensures offsets64 { result.offsets64.now ≡ self.now.offsets64.items }
    {
        Source {
            nodes: self.nodes.as_slice(),
            validity: self.validity.as_slice(),
            offsets32: self.offsets32.as_slice(),
            offsets64: self.offsets64.as_slice(),
        }
    }

    // The name of a node, where it has one.
    pub fn name(&self, node: usize) -> Option<&str>
        ensures { option_copied result ≡ name_at self.now.names.items node }
    {
        self.names.get(node)?.as_ref().map(String::as_str)
    }
}

#[cfg(test)]
mod tests {
    use super::*;
    use statement::Rows;
    use std::test::Fail;
    use table::{Kind, NO_PARENT};

    const LEAF: Node = Node {
        parent: NO_PARENT,
        kind: Kind::Leaf as u8,
        nullable: false,
        slots: 1,
        size: 0,
        validity: None,
        offsets: 0,
        sizes: 0,
    };

    // Each statement is taken in, an action is handed back, and `clear` forgets the names too.
    #[test]
    fn takes_each_statement_in(rt: HostRuntime) -> Result<(), Fail> {
        let heap = rt.alloc();
        let mut table = Table::new(heap);
        for name in [Some(String::from_str(heap, "root")?), None] {
            let given = NamedNode { node: LEAF, name };
            table.apply(Statement::Node(given))?;
        }
        table.apply(Statement::Validity(vec![in heap; 5, 255]?))?;
        table.apply(Statement::Offsets32(vec![in heap; 0, -2]?))?;
        table.apply(Statement::Offsets64(vec![in heap; 7]?))?;
        table.apply(Statement::Offsets64(vec![in heap; 8]?))?;
        assert_eq!(rt; table.name(0), Some("root"));
        assert_eq!(rt; table.name(1), None);
        assert_eq!(rt; table.source().nodes.len(), 2);
        assert_eq!(rt; table.source().validity, [5, 255].as_slice());
        assert_eq!(rt; table.source().offsets32, [0, -2].as_slice());
        assert_eq!(rt; table.source().offsets64, [7, 8].as_slice());
        let rows = Rows { from: 0, to: 1 };
        let action = table.apply(Statement::Do(Action::Measure { leaf: 3, rows }))?;
        assert!(rt; matches!(action, Some(Action::Measure { leaf: 3, .. })));
        assert!(rt; table.apply(Statement::Clear)?.is_none());
        assert_eq!(rt; table.name(0), None);
        assert_eq!(rt; table.source().nodes.len(), 0);
        Ok(())
    }
}
