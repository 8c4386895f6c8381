// The word at fault where the lines for all edits are read, too: where it stands in the line, and what is said of it.
use session::any_word_fault;
use std::test::Fail;

/// A line, where its word at fault begins, how many bytes that has, and what is said of it.
type Case = (&'static str, usize, usize, &'static str);

const OWNER: &str = "word 3 is not map, or layer: or object: or tileset: and an id";

const AT_FAULT: [Case; 39] = [
    ("frob 1", 0, 4, "word 1 is not a command"),
    ("layers add group a", 0, 6, "word 1 is not a command"),
    (
        "layer",
        5,
        0,
        "word 2 is missing: a word that a form has there",
    ),
    (
        "layer frob 1",
        6,
        4,
        "word 2 is not a word that a form has there",
    ),
    (
        "layer add",
        9,
        0,
        "word 3 is missing: tile, object, group or image",
    ),
    (
        "layer add frob a",
        10,
        4,
        "word 3 is not tile, object, group or image",
    ),
    (
        "layer add groups a",
        10,
        6,
        "word 3 is not tile, object, group or image",
    ),
    (
        "layer add group",
        15,
        0,
        "word 4 is missing: a text of 1 to 200 bytes, with no control character",
    ),
    (
        "layer add group ",
        16,
        0,
        "word 4 is not a text of 1 to 200 bytes, with no control character",
    ),
    (
        "layer add image a\tb c",
        16,
        5,
        "word 4 is not a text of 1 to 200 bytes, with no control character",
    ),
    (
        "layer add tile a\tb c",
        15,
        5,
        "word 4 is not a text of 1 to 200 bytes, with no control character",
    ),
    ("layer show 1 maybe", 13, 5, "word 4 is not yes or no"),
    (
        "object frob 1",
        7,
        4,
        "word 2 is not a word that a form has there",
    ),
    (
        "object move 1 2 x",
        16,
        1,
        "word 5 is not a whole number from -1000000000 to 1000000000",
    ),
    (
        "object put",
        10,
        0,
        "word 3 is missing: a whole number from 0 to 4294967295, with no zero in front",
    ),
    (
        "object put 01 {}",
        11,
        2,
        "word 3 is not a whole number from 0 to 4294967295, with no zero in front",
    ),
    ("object put 2", 12, 0, "word 4 is missing: a JSON text"),
    ("object put 2 ", 13, 0, "word 4 is not a JSON text"),
    (
        "object into 1 2 x",
        16,
        1,
        "word 5 is not a whole number from 0 to 4294967295, with no zero in front",
    ),
    (
        "layer into 1 0",
        14,
        0,
        "word 5 is missing: a whole number from 0 to 4294967295, with no zero in front",
    ),
    (
        "layer put 0 x {}",
        12,
        1,
        "word 4 is not a whole number from 0 to 4294967295, with no zero in front",
    ),
    ("layer put 0 0", 13, 0, "word 5 is missing: a JSON text"),
    ("extend 0 0 1 1 1", 15, 1, "word 6 is one too many"),
    (
        "extend 0 0 1 -1",
        13,
        2,
        "word 5 is not a whole number from 0 to 4294967295, with no zero in front",
    ),
    ("prop put map", 12, 0, "word 4 is missing: a JSON text"),
    (
        "prop frob map {}",
        5,
        4,
        "word 2 is not a word that a form has there",
    ),
    (
        "prop set map a frob x",
        15,
        4,
        "word 5 is not string, int, bool, color, file or object",
    ),
    (
        "prop take tileset:1 \"a\"",
        10,
        9,
        "word 3 is not map, or layer: or object: and an id",
    ),
    ("prop take map", 13, 0, "word 4 is missing: a JSON text"),
    ("tileset put", 11, 0, "word 3 is missing: a JSON text"),
    ("tileset put ", 12, 0, "word 3 is not a JSON text"),
    (
        "tileset number 1",
        16,
        0,
        "word 4 is missing: a whole number from 0 to 4294967295, with no zero in front",
    ),
    ("tileset remove 1 2", 17, 1, "word 4 is one too many"),
    (
        "member",
        6,
        0,
        "word 2 is missing: a word that a form has there",
    ),
    ("member set tileset a 1", 11, 7, OWNER),
    ("member set map a", 16, 0, "word 5 is missing: a JSON text"),
    ("member remove map a b", 20, 1, "word 5 is one too many"),
    ("undo x", 5, 1, "word 2 is one too many"),
    (
        "begin a || \t",
        11,
        1,
        "word 4 is not a text of 1 to 200 bytes, with no control character",
    ),
];

// They are read by one of both, or refused as a whole.
const WITHOUT: [&str; 21] = [
    "",
    "# layer add",
    "undo",
    "layer add tile a b",
    "layer add group a b",
    "layer add image a",
    "object put 2 {} x",
    "object add 1 2 3 4 5 a",
    "prop take object:1 \"two words\"",
    "prop take map x",
    "prop set map a int 1",
    "prop put map {}",
    "object into 1 2 0",
    "layer into 1 0 0",
    "extend 0 0 1 1",
    "tileset put [",
    "tileset add 1 a",
    "tileset number 1 0",
    "member set tileset:1 name  1",
    "member put+ map {}",
    "member remove map a",
];

#[test]
fn a_word_is_at_fault_for_both_tables(rt: HostRuntime) -> Result<(), Fail> {
    for (line, at, length, words) in AT_FAULT {
        let fault = any_word_fault(line.as_bytes());
        assert!(rt; fault.is_some(), "{line}");
        let Some(fault) = fault else {
            continue;
        };
        let told = format!(in rt.alloc(); "{fault}")?;
        assert_eq!(rt; told.as_str(), words, "{line}");
        assert_eq!(rt; (fault.at, fault.length), (at, length), "{line}");
    }
    Ok(())
}

#[test]
fn lines_of_both_tables_have_no_word_at_fault(rt: HostRuntime) -> Result<(), Fail> {
    for line in WITHOUT {
        assert!(rt; any_word_fault(line.as_bytes()).is_none(), "{line}");
    }
    assert!(rt; any_word_fault(b"layer add group \xff").is_none());
    Ok(())
}
