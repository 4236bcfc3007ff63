// Reads one line of a job.
#![tactic(auto)]

ghost use Rattle.std.specs.Prelude.{◌≡◌, [], IfOk, OnOk};
ghost use Rattle.words.specs.Words.{words_of};
ghost use Rattle.job.specs.Lines.{MeasureRead, NodeRead, NodeSays, ReadsEach, Says, LineSays};

use keyed::{name_given, needed, only, optional, value_or};
use line_fault::{Key, LineFault};
use part::Value;
use statement::{Action, NamedNode, Statement};
use std::alloc::Global;
use table::{NO_PARENT, Node};
use words::{Words, is_word, words_of};

// An item for each word. The allocator stands beside the words and not in them: half of the functions over words allocate nothing.
fn each<T: Drop, F: Fn(&[u8]) -> Result<T, LineFault>>(
    heap: Global,
    words: &Words,
    read: F,
) -> Result<Vec<T>, LineFault>
    requires { F.IsAlwaysCallable read }
    ensures { IfOk result (λ v. ReadsEach F.Fn read words.now v.items) }
{
    let mut items = Vec::new(heap);
    for word in words.texts() {
        items.push(read(word)?)?;
    }
    Ok(items)
}

fn measure(words: &Words) -> Result<Action, LineFault>
    ensures { IfOk result (λ a. MeasureRead words.now a) }
{
    only(words, 1, &[Key::Leaf, Key::Rows])?;
    Ok(Action::Measure {
        leaf: needed(words, Key::Leaf)?,
        rows: needed(words, Key::Rows)?,
    })
}

// The parts of a node behind its kind and nullability.
fn node_parts(kind: u8, nullable: bool, words: &Words) -> Result<Node, LineFault>
    ensures { IfOk result (λ n. NodeRead kind nullable words.now n) }
{
    Ok(Node {
        kind,
        nullable,
        parent: value_or(words, Key::Parent, NO_PARENT)?,
        slots: value_or(words, Key::Slots, 0)?,
        size: value_or(words, Key::Size, 0)?,
        validity: optional(words, Key::Validity)?,
        offsets: value_or(words, Key::Offsets, 0)?,
        sizes: value_or(words, Key::Sizes, 0)?,
    })
}

const NODE_KEYS: [Key; 7] = [
    Key::Parent,
    Key::Slots,
    Key::Size,
    Key::Validity,
    Key::Offsets,
    Key::Sizes,
    Key::Name,
];

fn node(heap: Global, words: &Words) -> Result<NamedNode, LineFault>
    ensures { IfOk result (λ n. NodeSays words.now n) }
{
    let [kind, behind @ ..] = words.texts() else {
        return Err(LineFault::Missing(Key::Kind));
    };
    let kind = part::kind(kind)?;
    let [nullable, behind @ ..] = behind else {
        return Err(LineFault::NotNullability);
    };
    let nullable = part::nullable(nullable)?;
    let parts = Words::new(behind);
    only(&parts, 3, &NODE_KEYS)?;
    Ok(NamedNode {
        node: node_parts(kind, nullable, &parts)?,
        name: name_given(heap, &parts)?,
    })
}

// Refuses words behind a statement that has no parts.
fn alone(words: &Words) -> Result<(), LineFault>
    ensures { OnOk result (words.now ≡ []) }
{
    if words.texts().is_empty() {
        Ok(())
    } else {
        Err(LineFault::Misplaced(2))
    }
}

// Not a `match` on byte strings: it tests byte by byte in a tree, whose proof did not close.
fn statement_of(heap: Global, first: &[u8], words: &Words) -> Result<Statement, LineFault>
    ensures { IfOk result (λ s. Says first.now words.now s) }
{
    if is_word(first, b"node") {
        Ok(Statement::Node(node(heap, words)?))
    } else if is_word(first, b"validity") {
        Ok(Statement::Validity(each(heap, words, part::byte)?))
    } else if is_word(first, b"offsets32") {
        let offset = |text: &[u8]| i32::read(text, Key::Offset);
        Ok(Statement::Offsets32(each(heap, words, offset)?))
    } else if is_word(first, b"offsets64") {
        let offset = |text: &[u8]| i64::read(text, Key::Offset);
        Ok(Statement::Offsets64(each(heap, words, offset)?))
    } else if is_word(first, b"clear") {
        alone(words)?;
        Ok(Statement::Clear)
    } else if is_word(first, b"survey") {
        alone(words)?;
        Ok(Statement::Do(Action::Survey))
    } else if is_word(first, b"measure") {
        Ok(Statement::Do(measure(words)?))
    } else {
        Err(LineFault::UnknownStatement)
    }
}

// The statement of a line, or none where it is empty or only a comment.
pub fn parse(heap: Global, line: &[u8]) -> Result<Option<Statement>, LineFault>
    ensures { IfOk result (λ s. LineSays (words_of line.now) s) }
{
    let words = words_of(heap, line)?;
    match words.as_slice() {
        [] => Ok(None),
        [first, behind @ ..] => Ok(Some(statement_of(heap, first, &Words::new(behind))?)),
    }
}
