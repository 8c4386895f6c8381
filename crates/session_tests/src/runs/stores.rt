use super::{MANY, Sink, Source, WHOLE, read_script, source_of, told_of, whole_lines};
use map_store::{FuseStore, MapStore, MemoryStore};
use session_run::run;
use std::alloc::{AllocError, Global};
use std::test::Fail;

/// A map of 2 by 1 cells, with a tile and a flipped one.
pub const MAP: &str =
    r#"{"height":1,"infinite":false,"layers":[{"data":"AQAAAAIAAIA=","encoding":"base64","height":1,"id":1,"name":"g","opacity":1,"type":"tilelayer","visible":true,"width":2,"x":0,"y":0}],"nextlayerid":2,"nextobjectid":1,"orientation":"orthogonal","renderorder":"right-down","tileheight":16,"tilesets":[{"firstgid":1,"source":"t.tsj"}],"tilewidth":16,"type":"map","version":"1.10","width":2}"#;

/// The files `m.tmj`, with that map, and no other.
fn one_file(alloc: Global) -> Result<MemoryStore, AllocError> {
    let mut files = MemoryStore::new(alloc);
    match files.store(alloc, "m.tmj", MAP.as_bytes()) {
        Ok(()) => Ok(files),
        Err(_) => Err(AllocError),
    }
}

/// What is told of a run over one file, where the k-th call of the store fails, and none at 0; and then the file `n.tmj`, where it is there.
fn told_over_files(
    alloc: Global,
    mut source: Source<'_>,
    mut sink: Sink,
    fails_at: u64,
) -> Result<String, AllocError> {
    let mut store = FuseStore::new(one_file(alloc)?, fails_at);
    let end = run(alloc, &mut source, &mut sink, &mut store, 0);
    let told = told_of(alloc, &sink, &end)?;
    let mut files = store.into_inner();
    match files.load(alloc, "n.tmj") {
        Ok(bytes) => {
            let text = str::from_utf8(&bytes).unwrap_or("not UTF-8");
            format!(in alloc; "{told} {text}")
        }
        Err(_) => Ok(told),
    }
}

/// Whether a session over a store that fails at its k-th call has these replies, and leaves that file.
fn is_told(alloc: Global, pairs: &str, fails_at: u64, file: &str) -> Result<bool, Fail> {
    let script = read_script(alloc, pairs)?;
    let sink = Sink::new(alloc, WHOLE, MANY, MANY);
    let told = told_over_files(alloc, source_of(&script, WHOLE, MANY), sink, fails_at)?;
    let replies = script.replies.as_str();
    let wanted = format!(in alloc; "{replies}done{file}")?;
    Ok(told.as_str() == wanted.as_str())
}

const SAVED: &str = "open m m.tmj => ok 0/0 clean 0
tile 1 0 0 => tile 1 ---- 1 0
tile 1 1 0 => tile 2147483650 h--- 1 1
save n.tmj => saved n.tmj 384
open m m.tmj => no 11 name taken
open q none.tmj => no 50 no such file";

const NOT_OPENED: &str = "open m m.tmj => no 51 store failed
tile 1 0 0 => no 10 no active document
tile 1 1 0 => no 10 no active document
save n.tmj => no 10 no active document
open m m.tmj => ok 0/0 clean 0
open q none.tmj => no 50 no such file";

const NOT_SAVED: &str = "open m m.tmj => ok 0/0 clean 0
tile 1 0 0 => tile 1 ---- 1 0
tile 1 1 0 => tile 2147483650 h--- 1 1
save n.tmj => no 51 store failed
open m m.tmj => no 11 name taken
open q none.tmj => no 50 no such file";

const NOT_LOOKED_FOR: &str = "open m m.tmj => ok 0/0 clean 0
tile 1 0 0 => tile 1 ---- 1 0
tile 1 1 0 => tile 2147483650 h--- 1 1
save n.tmj => saved n.tmj 384
open m m.tmj => no 11 name taken
open q none.tmj => no 51 store failed";

#[test]
fn each_call_of_the_store_may_fail(rt: HostRuntime) -> Result<(), Fail> {
    let alloc = rt.alloc();
    let file = format!(in alloc; " {MAP}")?;
    let cases = [
        (0, SAVED, file.as_str()),
        (1, NOT_OPENED, ""),
        (2, NOT_SAVED, ""),
        (3, NOT_LOOKED_FOR, file.as_str()),
    ];
    for (fails_at, pairs, file) in cases {
        assert!(rt; is_told(alloc, pairs, fails_at, file)?, "at {fails_at}");
    }
    Ok(())
}

const SAVED_AGAIN: &str = "new town 4 3 16 16 town.tsj => ok 0/0 clean 0
stamp 1 0 0 1 5 => ok 1/1 dirty 0
save a.tmj => no 51 store failed
status => ok 1/1 dirty 0
save a.tmj => saved a.tmj 389
status => ok 1/1 clean 0
undo => ok 0/1 dirty 0";

#[test]
fn a_failed_save_does_not_mark_clean(rt: HostRuntime) -> Result<(), Fail> {
    assert!(rt; is_told(rt.alloc(), SAVED_AGAIN, 1, "")?);
    Ok(())
}

/// The replies to a session over two documents, by the call of the store that fails.
const OVER_TWO: [&str; 5] = [
    "open a m.tmj => ok 0/0 clean 0
open b m.tmj => ok 0/0 clean 0
stamp 1 0 0 1 2 => ok 1/1 dirty 0
save o.tmj => saved o.tmj 384
use a => ok 0/0 clean 0
save m.tmj => saved m.tmj 384
list => docs *a b",
    "open a m.tmj => no 51 store failed
open b m.tmj => ok 0/0 clean 0
stamp 1 0 0 1 2 => ok 1/1 dirty 0
save o.tmj => saved o.tmj 384
use a => no 12 no such document
save m.tmj => saved m.tmj 384
list => docs *b",
    "open a m.tmj => ok 0/0 clean 0
open b m.tmj => no 51 store failed
stamp 1 0 0 1 2 => ok 1/1 dirty 0
save o.tmj => saved o.tmj 384
use a => ok 1/1 clean 0
save m.tmj => saved m.tmj 384
list => docs *a",
    "open a m.tmj => ok 0/0 clean 0
open b m.tmj => ok 0/0 clean 0
stamp 1 0 0 1 2 => ok 1/1 dirty 0
save o.tmj => no 51 store failed
use a => ok 0/0 clean 0
save m.tmj => saved m.tmj 384
list => docs *a b",
    "open a m.tmj => ok 0/0 clean 0
open b m.tmj => ok 0/0 clean 0
stamp 1 0 0 1 2 => ok 1/1 dirty 0
save o.tmj => saved o.tmj 384
use a => ok 0/0 clean 0
save m.tmj => no 51 store failed
list => docs *a b",
];

#[test]
fn each_call_for_two_documents_may_fail(rt: HostRuntime) -> Result<(), Fail> {
    for (pairs, fails_at) in OVER_TWO.iter().zip(0..5) {
        assert!(rt; is_told(rt.alloc(), pairs, fails_at, "")?, "at {fails_at}");
    }
    Ok(())
}

/// Whether what is told ends with the file exactly if one was saved.
fn ends_with_file(told: &str, is_saved: bool) -> bool {
    told.ends_with(MAP) == is_saved
}

// The fourth line saves.
#[test]
fn a_line_is_done_though_its_reply_is_not_written(rt: HostRuntime) -> Result<(), Fail> {
    let alloc = rt.alloc();
    let script = read_script(alloc, SAVED)?;
    for writes_left in 0..6u32 {
        let sink = Sink::new(alloc, WHOLE, writes_left, MANY);
        let told = told_over_files(alloc, source_of(&script, WHOLE, MANY), sink, 0)?;
        assert!(rt;
            ends_with_file(told.as_str(), writes_left >= 3),
            "at {writes_left}"
        );
    }
    Ok(())
}

#[test]
fn a_line_that_is_read_in_part_is_not_done(rt: HostRuntime) -> Result<(), Fail> {
    let alloc = rt.alloc();
    let script = read_script(alloc, SAVED)?;
    let bytes = script.session.as_bytes();
    for (read, calls_left) in (0..=bytes.len()).zip(0..MANY) {
        let sink = Sink::new(alloc, WHOLE, MANY, MANY);
        let told = told_over_files(alloc, source_of(&script, 1, calls_left), sink, 0)?;
        let is_saved = whole_lines(bytes, read) >= 4;
        assert!(rt; ends_with_file(told.as_str(), is_saved), "at {read}");
    }
    Ok(())
}
