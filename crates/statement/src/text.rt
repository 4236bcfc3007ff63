// Statements as text, as they were understood.
use crate::{Action, NamedNode, Rows, Statement};
use std::fmt;
use table::{Kind, Node};

impl fmt::Display for Rows {
    fn fmt<W: fmt::Write>(&self, f: &mut fmt::Formatter<W>) -> fmt::Result {
        let Rows { from, to } = self;
        write!(f, "{from}..{to}")
    }
}

impl fmt::Display for Action {
    fn fmt<W: fmt::Write>(&self, f: &mut fmt::Formatter<W>) -> fmt::Result {
        match self {
            Action::Survey => f.write_str("survey"),
            Action::Measure { leaf, rows } => write!(f, "measure leaf={leaf} rows={rows}"),
        }
    }
}

// A text, and a value behind it, written as the formatter asks.
fn show<W: fmt::Write, D: fmt::Display>(
    f: &mut fmt::Formatter<W>,
    before: &str,
    value: &D,
) -> fmt::Result {
    f.write_str(before)?;
    value.fmt(f)
}

// A node with all its parts, given or not; a number that no kind has stands for its kind.
impl fmt::Display for NamedNode {
    fn fmt<W: fmt::Write>(&self, f: &mut fmt::Formatter<W>) -> fmt::Result {
        let Node {
            parent,
            kind,
            nullable,
            slots,
            size,
            validity,
            offsets,
            sizes,
        } = self.node;
        match Kind::try_from(kind) {
            Ok(known) => show(f, "node ", &known.word())?,
            Err(_) => show(f, "node ", &kind)?,
        }
        f.write_str(if nullable { " nullable" } else { " required" })?;
        show(f, " parent=", &parent)?;
        show(f, " slots=", &slots)?;
        show(f, " size=", &size)?;
        if let Some(validity) = validity {
            show(f, " validity=", &validity)?;
        }
        show(f, " offsets=", &offsets)?;
        show(f, " sizes=", &sizes)?;
        if let Some(name) = &self.name {
            show(f, " name=", name)?;
        }
        Ok(())
    }
}

// A word, and each value behind a space.
fn show_each<W: fmt::Write, D: fmt::Display>(
    f: &mut fmt::Formatter<W>,
    word: &str,
    values: &[D],
) -> fmt::Result {
    f.write_str(word)?;
    for value in values {
        show(f, " ", value)?;
    }
    Ok(())
}

impl fmt::Display for Statement {
    fn fmt<W: fmt::Write>(&self, f: &mut fmt::Formatter<W>) -> fmt::Result {
        match self {
            Statement::Node(node) => node.fmt(f),
            Statement::Validity(bytes) => {
                f.write_str("validity")?;
                bytes.iter().try_for_each(|byte| write!(f, " {byte:02x}"))
            }
            Statement::Offsets32(offsets) => show_each(f, "offsets32", offsets.as_slice()),
            Statement::Offsets64(offsets) => show_each(f, "offsets64", offsets.as_slice()),
            Statement::Clear => f.write_str("clear"),
            Statement::Do(action) => action.fmt(f),
        }
    }
}
