// What the parser makes of one line: each statement, and each way in which a line cannot be read.
#![tactic(auto)]

use job::parse;
use std::alloc::{AllocError, Global};

// The line as it was understood, or what is wrong with it.
pub fn understood(heap: Global, line: &[u8]) -> Result<String, AllocError> {
    match parse(heap, line) {
        Ok(None) => String::from_str(heap, "nothing"),
        Ok(Some(statement)) => format!(in heap; "{statement}"),
        Err(fault) => format!(in heap; "error: {fault}"),
    }
}

#[cfg(test)]
mod tests {
    use super::*;
    use std::process::Abort;
    use std::test::Fail;

    fn all(rt: &impl Abort, heap: Global, cases: &[(&str, &str)]) -> Result<(), Fail> {
        for (line, said) in cases {
            let text = understood(heap, line.as_bytes())?;
            assert_eq!(rt; text.as_str(), *said, "{}", *line);
        }
        Ok(())
    }

    #[test]
    fn statements(rt: HostRuntime) -> Result<(), Fail> {
        all(
            &rt,
            rt.alloc(),
            &[
                ("", "nothing"),
                (" \t\r\n", "nothing"),
                ("   # nothing here", "nothing"),
                ("survey", "survey"),
                ("\t survey  # why not\r\n", "survey"),
                ("clear#", "clear"),
                ("measure rows=0..4  leaf=2", "measure leaf=2 rows=0..4"),
                ("measure\tleaf=007\trows=7..3", "measure leaf=7 rows=7..3"),
                (
                    "measure leaf=18446744073709551615 rows=0..18446744073709551615",
                    "measure leaf=18446744073709551615 rows=0..18446744073709551615",
                ),
                ("validity 0a\tFF 00", "validity 0a ff 00"),
                ("validity", "validity"),
                ("offsets32", "offsets32"),
                ("offsets64 # none", "offsets64"),
                (
                    "offsets32 0 -1 2147483647 -2147483648",
                    "offsets32 0 -1 2147483647 -2147483648",
                ),
                (
                    "offsets64 -9223372036854775808 9223372036854775807 -0",
                    "offsets64 -9223372036854775808 9223372036854775807 0",
                ),
            ],
        )
    }

    #[test]
    fn nodes(rt: HostRuntime) -> Result<(), Fail> {
        all(
            &rt,
            rt.alloc(),
            &[
                (
                    "node leaf required",
                    "node leaf required parent=255 slots=0 size=0 offsets=0 sizes=0",
                ),
                (
                    "node\tlarge_list_view\tnullable sizes=5 name=häuser validity=0 offsets=4 size=3 slots=4294967295 parent=0",
                    "node large_list_view nullable parent=0 slots=4294967295 size=3 validity=0 offsets=4 sizes=5 name=häuser",
                ),
                (
                    "node struct nullable",
                    "node struct nullable parent=255 slots=0 size=0 offsets=0 sizes=0",
                ),
                (
                    "node list nullable name=a=b",
                    "node list nullable parent=255 slots=0 size=0 offsets=0 sizes=0 name=a=b",
                ),
                (
                    "node large_list required size=4294967295",
                    "node large_list required parent=255 slots=0 size=4294967295 offsets=0 sizes=0",
                ),
                (
                    "node fixed_size_list required parent=254",
                    "node fixed_size_list required parent=254 slots=0 size=0 offsets=0 sizes=0",
                ),
                (
                    "node list_view required offsets=18446744073709551615",
                    "node list_view required parent=255 slots=0 size=0 offsets=18446744073709551615 sizes=0",
                ),
                (
                    "node 3 required",
                    "node large_list required parent=255 slots=0 size=0 offsets=0 sizes=0",
                ),
                (
                    "node 255 nullable validity=18446744073709551615",
                    "node 255 nullable parent=255 slots=0 size=0 validity=18446744073709551615 offsets=0 sizes=0",
                ),
            ],
        )
    }

    #[test]
    fn unreadable(rt: HostRuntime) -> Result<(), Fail> {
        all(
            &rt,
            rt.alloc(),
            &[
                ("survay", "error: no statement begins with this word"),
                ("überblick", "error: no statement begins with this word"),
                ("survey now", "error: word 2 is no part of this statement"),
                ("clear 1", "error: word 2 is no part of this statement"),
                ("measure leaf", "error: word 2 is no part of this statement"),
                (
                    "measure leaf=1 slots=2",
                    "error: word 3 is no part of this statement",
                ),
                ("measure leaf=1", "error: rows is missing"),
                ("measure rows=0..1", "error: leaf is missing"),
                (
                    "measure leaf=1 leaf=1 rows=0..1",
                    "error: leaf is given twice",
                ),
                ("measure leaf= rows=0..1", "error: leaf is not a number"),
                ("measure leaf=+1 rows=0..1", "error: leaf is not a number"),
                (
                    "measure leaf=99999999999999999999999999x rows=0..1",
                    "error: leaf is not a number",
                ),
                (
                    "measure leaf=18446744073709551616 rows=0..1",
                    "error: leaf is too large",
                ),
                (
                    "measure leaf=0 rows=5",
                    "error: rows is not a range FROM..TO",
                ),
                ("measure leaf=0 rows=..5", "error: rows is not a number"),
                ("measure leaf=0 rows=0..", "error: rows is not a number"),
                ("measure leaf=0 rows=0...5", "error: rows is not a number"),
                (
                    "measure leaf=0 rows=0..18446744073709551616",
                    "error: rows is too large",
                ),
            ],
        )
    }

    #[test]
    fn unreadable_buffers(rt: HostRuntime) -> Result<(), Fail> {
        all(
            &rt,
            rt.alloc(),
            &[
                ("validity 0", "error: a byte is not two hexadecimal digits"),
                ("validity 0g", "error: a byte is not two hexadecimal digits"),
                (
                    "validity 000",
                    "error: a byte is not two hexadecimal digits",
                ),
                ("validity é", "error: a byte is not two hexadecimal digits"),
                ("offsets32 2147483648", "error: an offset is too large"),
                ("offsets32 -2147483649", "error: an offset is too large"),
                ("offsets32 1,2", "error: an offset is not a number"),
                (
                    "offsets64 9223372036854775808",
                    "error: an offset is too large",
                ),
                (
                    "offsets64 -9223372036854775809",
                    "error: an offset is too large",
                ),
                ("offsets64 --1", "error: an offset is not a number"),
                ("offsets64 -", "error: an offset is not a number"),
            ],
        )
    }

    #[test]
    fn unreadable_nodes(rt: HostRuntime) -> Result<(), Fail> {
        all(
            &rt,
            rt.alloc(),
            &[
                ("node", "error: the kind is missing"),
                ("node tree nullable", "error: the kind is not a number"),
                ("node -1 nullable", "error: the kind is not a number"),
                ("node 256 nullable", "error: the kind is too large"),
                (
                    "node leaf",
                    "error: a node is neither required nor nullable",
                ),
                (
                    "node leaf slots=3",
                    "error: a node is neither required nor nullable",
                ),
                (
                    "node leaf nullable colour=red",
                    "error: word 4 is no part of this statement",
                ),
                (
                    "node leaf nullable slots=1 required",
                    "error: word 5 is no part of this statement",
                ),
                (
                    "node leaf nullable name=a name=a",
                    "error: name is given twice",
                ),
                (
                    "node leaf nullable parent=256",
                    "error: parent is too large",
                ),
                (
                    "node leaf nullable slots=4294967296",
                    "error: slots is too large",
                ),
                (
                    "node leaf nullable size=4294967296",
                    "error: size is too large",
                ),
                (
                    "node leaf nullable validity=18446744073709551616",
                    "error: validity is too large",
                ),
                (
                    "node leaf nullable validity=none",
                    "error: validity is not a number",
                ),
                (
                    "node leaf nullable offsets=-1",
                    "error: offsets is not a number",
                ),
                (
                    "node leaf nullable sizes=18446744073709551616",
                    "error: sizes is too large",
                ),
            ],
        )
    }

    #[test]
    fn bytes_that_are_no_text(rt: HostRuntime) -> Result<(), Fail> {
        let name = understood(rt.alloc(), b"node leaf nullable name=\xff")?;
        assert_eq!(rt; name.as_str(), "error: name is not UTF-8 text");
        let comment = understood(rt.alloc(), b"survey # \xff")?;
        assert_eq!(rt; comment.as_str(), "survey");
        Ok(())
    }
}
