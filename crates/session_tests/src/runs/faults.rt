use super::{
    MANY, ONE, SEVERAL, Script, Sink, WHOLE, first_replies, read_script, source_of, taken,
    whole_lines,
};
use std::alloc::Global;
use std::test::Fail;

/// Whether each read may fail: all replies before it were written then, and none else. A buffer in between hands on all
/// replies before a read that may wait.
fn each_read_may_fail(
    alloc: Global,
    script: &Script,
    step: usize,
    has_buffer: bool,
) -> Result<bool, Fail> {
    let bytes = script.session.as_bytes();
    // All reads, and one that shows the end.
    let calls = bytes.len().div_ceil(step.max(1)).saturating_add(1);
    for (read, calls_left) in (0..=calls).zip(0..MANY) {
        let lines = whole_lines(bytes, read.saturating_mul(step));
        let replies = first_replies(&script.replies, lines);
        let end = if read < calls { "read failed" } else { "done" };
        let wanted = format!(in alloc; "{replies}{end}")?;
        let sink = Sink::new(alloc, WHOLE, MANY, MANY);
        let told = taken(alloc, source_of(script, step, calls_left), sink, has_buffer)?;
        if told.as_str() != wanted.as_str() {
            return Ok(false);
        }
    }
    Ok(true)
}

#[test]
fn read_faults_come_behind_all_replies(rt: HostRuntime) -> Result<(), Fail> {
    let alloc = rt.alloc();
    for pairs in [ONE, SEVERAL] {
        let script = read_script(alloc, pairs)?;
        for (step, has_buffer) in [(1, false), (1, true), (5, false), (64, false), (64, true)] {
            assert!(rt;
                each_read_may_fail(alloc, &script, step, has_buffer)?,
                "by {step}"
            );
        }
    }
    Ok(())
}

/// Whether each write may fail, of which one takes a whole reply: the replies before it were written then.
fn each_whole_write_may_fail(
    alloc: Global,
    script: &Script,
    step: usize,
    has_buffer: bool,
) -> Result<bool, Fail> {
    let all = script.replies.lines().count();
    for (count, writes_left) in (0..=all).zip(0..MANY) {
        let replies = first_replies(&script.replies, count);
        let end = if count < all { "write failed" } else { "done" };
        let wanted = format!(in alloc; "{replies}{end}")?;
        let sink = Sink::new(alloc, WHOLE, writes_left, MANY);
        let told = taken(alloc, source_of(script, step, MANY), sink, has_buffer)?;
        if told.as_str() != wanted.as_str() {
            return Ok(false);
        }
    }
    Ok(true)
}

// A reply that is no map is written by one call, and so it is where a buffer stands in between and one byte is read at a time.
#[test]
fn write_faults_come_behind_whole_replies(rt: HostRuntime) -> Result<(), Fail> {
    let alloc = rt.alloc();
    for (pairs, step, has_buffer) in [
        (ONE, WHOLE, false),
        (ONE, 1, true),
        (SEVERAL, WHOLE, false),
        (SEVERAL, 1, true),
    ] {
        let script = read_script(alloc, pairs)?;
        assert!(rt;
            each_whole_write_may_fail(alloc, &script, step, has_buffer)?,
            "by {step}"
        );
    }
    Ok(())
}

/// Whether each write of one byte may fail: the bytes before it were written then.
fn each_byte_may_fail(alloc: Global, script: &Script) -> Result<bool, Fail> {
    let replies = script.replies.as_str();
    for (count, writes_left) in (0..=replies.len()).zip(0..MANY) {
        let is_cut = count < replies.len();
        let end = if is_cut { "write failed" } else { "done" };
        let text = replies.get(..count).unwrap_or(replies);
        let wanted = format!(in alloc; "{text}{end}")?;
        let sink = Sink::new(alloc, 1, writes_left, MANY);
        let told = taken(alloc, source_of(script, WHOLE, MANY), sink, false)?;
        if told.as_str() != wanted.as_str() {
            return Ok(false);
        }
    }
    Ok(true)
}

#[test]
fn write_faults_come_behind_each_byte(rt: HostRuntime) -> Result<(), Fail> {
    let alloc = rt.alloc();
    for pairs in [ONE, SEVERAL] {
        let script = read_script(alloc, pairs)?;
        assert!(rt; each_byte_may_fail(alloc, &script)?);
    }
    Ok(())
}

#[test]
fn write_that_takes_no_byte_is_a_fault(rt: HostRuntime) -> Result<(), Fail> {
    let alloc = rt.alloc();
    let script = read_script(alloc, ONE)?;
    let sink = Sink::new(alloc, 0, MANY, MANY);
    let told = taken(alloc, source_of(&script, WHOLE, MANY), sink, false)?;
    assert_eq!(rt; told.as_str(), "write failed");
    Ok(())
}
