// Walks over lists of runs, each from the first run to the last one. Whole stretches of runs of one list are found and
// copied at once. The steps are inlined: where two lists take turns run by run, the calls would cost more than the steps.
ghost use Rattle.std.specs.Prelude.{◌≡◌, ℕ, ◌+◌, ◌<◌, ◌≤◌, ◌||◌, ◌&&◌, not, List, ◌∷◌, ◌++◌, true, false, length, IfOk, IfSome, vec_len, vec_capacity};
ghost use Rattle.region.specs.Cells.{IsFrom};
ghost use Rattle.region.specs.Runs.{IsRun, IsMaximalRuns, in_run, in_runs};
ghost use Rattle.region.specs.Walks.{AreSplitAt, EndBeforeFirst, HaveEnded, IsFromFirst, LastsTo, in_moved_runs, in_option, is_after, is_before};
ghost use Rattle.region.specs.declared.runs.Run.{Run as RunOf};
ghost use Rattle.std.specs.Option.{option_to_list};

use crate::stored::StoredRun;
use std::alloc::{AllocError, Global};

// The runs that end before a cell, which stand first, and the others.
pub(crate) fn split_ended(runs: &[StoredRun], x: u32, y: u32) -> (&[StoredRun], &[StoredRun])
    requires { IsMaximalRuns runs.now }
    ensures { AreSplitAt (x, y) runs.now result.0.now result.1.now }
{
    let at = runs.partition_point(|run| run.ends_before(x, y));
    runs.split_at(at)
}

// The runs that end before a cell, and the others, where often none or one ends before the cell.
#[inline(always)]
fn split_near(runs: &[StoredRun], x: u32, y: u32) -> (&[StoredRun], &[StoredRun])
    requires { IsMaximalRuns runs.now }
    ensures { AreSplitAt (x, y) runs.now result.0.now result.1.now }
{
    if runs.is_empty() || !runs[0].ends_before(x, y) {
        return runs.split_at(0);
    }
    if runs.len() == 1 || !runs[1].ends_before(x, y) {
        return runs.split_at(1);
    }
    split_far(runs, x, y)
}

// The runs that end before a cell, and the others, where few end before the cell: it takes a number of steps that grows
// with the logarithm of how many end before it.
#[inline(never)]
fn split_far(runs: &[StoredRun], x: u32, y: u32) -> (&[StoredRun], &[StoredRun])
    requires { IsMaximalRuns runs.now }
    ensures { AreSplitAt (x, y) runs.now result.0.now result.1.now }
{
    let mut window = runs.len().min(1);
    while window < runs.len() && runs[window].ends_before(x, y) {
        window += window.min(runs.len() - window);
    }
    let (prefix, _) = split_ended(&runs[..window], x, y);
    runs.split_at(prefix.len())
}

// The runs that end before another one starts, and the others.
#[inline(always)]
fn split_at_start(runs: &[StoredRun], other: StoredRun) -> (&[StoredRun], &[StoredRun])
    requires { IsMaximalRuns runs.now }
    ensures { AreSplitAt (other.x, other.y) runs.now result.0.now result.1.now }
{
    let other = other.run();
    split_near(runs, other.x, other.y)
}

// The runs that end by the end of another one, and the others.
#[inline(always)]
fn split_at_end(runs: &[StoredRun], other: StoredRun) -> (&[StoredRun], &[StoredRun])
    requires runs { IsMaximalRuns runs.now }
    requires other { IsRun other }
    ensures { AreSplitAt (other.x + other.len, other.y) runs.now result.0.now result.1.now }
{
    let other = other.run();
    split_near(runs, other.end(), other.y)
}

// Puts a run at the end, or joins it to the last one, which is looked at where it stands. There is room for it.
#[inline(always)]
pub(crate) fn push_run(runs: &mut Vec<StoredRun>, run: StoredRun)
    requires room { vec_len runs.old < vec_capacity runs.old }
    requires runs { IsMaximalRuns runs.old.items }
    requires run { IsRun run }
    requires order { HaveEnded (run.x, run.y) runs.old.items }
    ensures cells { (q : ℕ × ℕ) → in_runs runs.new.items q ≡ (in_runs runs.old.items q || in_run run q) }
    ensures runs { (next : List RunOf) → IsMaximalRuns (run ∷ next) → IsMaximalRuns (runs.new.items ++ next) }
    ensures ended { (q : ℕ × ℕ) → HaveEnded q runs.old.items → is_after q run ≡ true → HaveEnded q runs.new.items }
    ensures len { vec_len runs.new ≤ vec_len runs.old + 1 }
    ensures capacity { vec_capacity runs.new ≡ vec_capacity runs.old }
{
    match runs.as_slice().split_last() {
        None => runs.push_reserved(run),
        Some((last, _)) => {
            if last.touches(run) {
                let joined = last.joined(run);
                let _last = runs.pop();
                runs.push_reserved(joined);
            } else {
                runs.push_reserved(run);
            }
        }
    }
}

// Puts a run at the end, if there is one, or joins it to the last one. There is room for it.
#[inline(always)]
fn push_optional(out: &mut Vec<StoredRun>, optional: Option<StoredRun>)
    requires room { vec_len out.old + length (option_to_list optional) ≤ vec_capacity out.old }
    requires runs { IsMaximalRuns out.old.items }
    requires optional { IfSome optional IsRun }
    requires order { IfSome optional (λ r. HaveEnded (r.x, r.y) out.old.items) }
    ensures cells { (q : ℕ × ℕ) → in_runs out.new.items q ≡ (in_runs out.old.items q || in_option optional q) }
    ensures runs { IsMaximalRuns out.new.items }
    ensures ended { (q : ℕ × ℕ) → HaveEnded q out.old.items → IfSome optional (λ r. is_after q r ≡ true) → HaveEnded q out.new.items }
    ensures len { vec_len out.new ≤ vec_len out.old + length (option_to_list optional) }
    ensures capacity { vec_capacity out.new ≡ vec_capacity out.old }
{
    if let Some(run) = optional {
        push_run(out, run);
    }
}

// Puts runs at the end, the first of which may be joined to the last one there. There is room for them.
#[inline(always)]
fn push_runs(out: &mut Vec<StoredRun>, runs: &[StoredRun])
    requires room { vec_len out.old + length runs.now ≤ vec_capacity out.old }
    requires first { IsMaximalRuns out.old.items }
    requires second { IsMaximalRuns runs.now }
    requires order { EndBeforeFirst out.old.items runs.now }
    ensures cells { (q : ℕ × ℕ) → in_runs out.new.items q ≡ (in_runs out.old.items q || in_runs runs.now q) }
    ensures runs { IsMaximalRuns out.new.items }
    ensures ended { (q : ℕ × ℕ) → HaveEnded q out.old.items → HaveEnded q runs.now → HaveEnded q out.new.items }
    ensures len { vec_len out.new ≤ vec_len out.old + length runs.now }
    ensures capacity { vec_capacity out.old ≤ vec_capacity out.new }
{
    if let Some((first, others)) = runs.split_first() {
        push_run(out, *first);
        if !others.is_empty() {
            out.extend_from_slice(others).unwrap();
        }
    }
}

// The part before another run of the first of some runs. That first run lasts to the other one.
#[inline(always)]
fn first_before(runs: &[StoredRun], other: StoredRun) -> Option<StoredRun>
    requires runs { IsMaximalRuns runs.now }
    requires lasts { LastsTo (other.x, other.y) runs.now }
    ensures cells { (q : ℕ × ℕ) → in_option result q ≡ (in_runs runs.now q && is_before q other) }
    ensures run { IfSome result IsRun }
    ensures order { (out : List RunOf) → EndBeforeFirst out runs.now → IfSome result (λ p. HaveEnded (p.x, p.y) out) }
    ensures ended { (q : ℕ × ℕ) → HaveEnded q runs.now → IfSome result (λ p. is_after q p ≡ true) }
    ensures before { IfSome result (λ p. is_after (other.x, other.y) p ≡ true) }
    ensures len { length (option_to_list result) ≤ length runs.now }
{
    let (first, _) = runs.split_first()?;
    first.before(other)
}

// Gives what the runs that end by the end of another one have before it, and answers the runs that are left.
#[inline(always)]
fn push_before<'a>(
    out: &mut Vec<StoredRun>,
    runs: &'a [StoredRun],
    other: StoredRun,
) -> &'a [StoredRun]
    requires room { vec_len out.old + length runs.now ≤ vec_capacity out.old }
    requires first { IsMaximalRuns out.old.items }
    requires second { IsMaximalRuns runs.now }
    requires other { IsRun other }
    requires order { EndBeforeFirst out.old.items runs.now }
    ensures cells { (q : ℕ × ℕ) → (in_runs out.new.items q || (in_runs result.now q && not (in_run other q)))
        ≡ (in_runs out.old.items q || (in_runs runs.entry.now q && not (in_run other q))) }
    ensures before { (q : ℕ × ℕ) → IsFrom q (other.x, other.y) → in_runs out.new.items q ≡ in_runs out.old.items q }
    ensures left { (prefix : List RunOf) × AreSplitAt (other.x + other.len, other.y) runs.entry.now prefix result.now }
    ensures runs { IsMaximalRuns out.new.items }
    ensures order { EndBeforeFirst out.new.items result.now }
    ensures ended { HaveEnded (other.x, other.y) out.old.items → HaveEnded (other.x, other.y) out.new.items }
    ensures len { vec_len out.new + length result.now ≤ vec_len out.old + length runs.entry.now }
    ensures capacity { vec_capacity out.old ≤ vec_capacity out.new }
{
    let (prefix, rest) = split_at_start(runs, other);
    push_runs(out, prefix);
    let (cut, rest) = split_at_end(rest, other);
    push_optional(out, first_before(cut, other));
    rest
}

// Adds what a run has apart from others, and gives the others without some that end before the run does.
#[inline(always)]
fn push_gaps<'a>(
    out: &mut Vec<StoredRun>,
    run: StoredRun,
    others: &'a [StoredRun],
) -> &'a [StoredRun]
    requires room { vec_len out.old + length others.now < vec_capacity out.old }
    requires first { IsMaximalRuns out.old.items }
    requires second { IsMaximalRuns others.now }
    requires run { IsRun run }
    requires order { HaveEnded (run.x, run.y) out.old.items }
    ensures cells { (q : ℕ × ℕ) → in_runs out.new.items q ≡ (in_runs out.old.items q || (in_run run q && not (in_runs others.entry.now q))) }
    ensures later { (q : ℕ × ℕ) → IsFrom q (run.x + run.len, run.y) → in_runs result.now q ≡ in_runs others.entry.now q }
    ensures rest { IsMaximalRuns result.now }
    ensures runs { IsMaximalRuns out.new.items }
    ensures ended { HaveEnded (run.x + run.len, run.y) out.new.items }
    ensures len { vec_len out.new + length result.now ≤ vec_len out.old + length others.entry.now + 1 }
    ensures capacity { vec_capacity out.old ≤ vec_capacity out.new }
{
    let (_, mut rest) = split_at_start(others, run);
    let mut left = run;
    while let Some((cut, behind)) = rest.split_first() {
        push_optional(out, left.before(*cut));
        match left.after(*cut) {
            Some(after) => {
                left = after;
                rest = behind;
            }
            None => return rest,
        }
    }
    push_run(out, left);
    rest
}

// Puts a run at the end, if there is one. There is room for it.
fn push_some(runs: &mut Vec<StoredRun>, run: Option<StoredRun>)
    requires room { vec_len runs.old < vec_capacity runs.old }
    ensures items { runs.new.items ≡ runs.old.items ++ option_to_list run }
    ensures len { vec_len runs.new ≤ vec_len runs.old + 1 }
    ensures capacity { vec_capacity runs.new ≡ vec_capacity runs.old }
{
    if let Some(run) = run {
        runs.push_reserved(run);
    }
}

// The runs of the cells of either list.
pub(crate) fn merged(
    alloc: Global,
    a: &[StoredRun],
    b: &[StoredRun],
) -> Result<Vec<StoredRun>, AllocError>
    requires first { IsMaximalRuns a.now }
    requires second { IsMaximalRuns b.now }
    ensures cells { IfOk result (λ v. (q : ℕ × ℕ) → in_runs v.items q ≡ (in_runs a.now q || in_runs b.now q)) }
    ensures runs { IfOk result (λ v. IsMaximalRuns v.items) }
{
    let mut out = Vec::with_capacity(alloc, a.len() + b.len())?;
    let (mut first, mut second) = (a, b);
    while let Some((next, _)) = second.split_first() {
        first = push_before(&mut out, first, *next);
        let Some((next, _)) = first.split_first() else {
            push_runs(&mut out, second);
            return Ok(out);
        };
        second = push_before(&mut out, second, *next);
    }
    push_runs(&mut out, first);
    Ok(out)
}

// Gives what runs share with another one, to which the first of them lasts and by whose end they all end.
#[inline(always)]
fn push_within(out: &mut Vec<StoredRun>, runs: &[StoredRun], other: StoredRun)
    requires room { vec_len out.old + length runs.now ≤ vec_capacity out.old }
    requires first { IsMaximalRuns out.old.items }
    requires second { IsMaximalRuns runs.now }
    requires other { IsRun other }
    requires lasts { LastsTo (other.x, other.y) runs.now }
    requires within { HaveEnded (other.x + other.len, other.y) runs.now }
    requires order { (q : ℕ × ℕ) → IsFrom q (other.x, other.y) → IsFromFirst q runs.now → HaveEnded q out.old.items }
    ensures cells { (q : ℕ × ℕ) → in_runs out.new.items q ≡ (in_runs out.old.items q || (in_runs runs.now q && in_run other q)) }
    ensures runs { IsMaximalRuns out.new.items }
    ensures ended { (q : ℕ × ℕ) → HaveEnded q out.old.items → HaveEnded q runs.now → HaveEnded q out.new.items }
    ensures len { vec_len out.new ≤ vec_len out.old + length runs.now }
    ensures capacity { vec_capacity out.old ≤ vec_capacity out.new }
{
    if let Some((first, others)) = runs.split_first() {
        push_optional(out, first.shared(other));
        push_runs(out, others);
    }
}

// Gives what the runs that end by the end of another one share with it, and answers the runs that are left.
#[inline(always)]
fn push_shared<'a>(
    out: &mut Vec<StoredRun>,
    runs: &'a [StoredRun],
    other: StoredRun,
) -> &'a [StoredRun]
    requires room { vec_len out.old + length runs.now ≤ vec_capacity out.old }
    requires first { IsMaximalRuns out.old.items }
    requires second { IsMaximalRuns runs.now }
    requires other { IsRun other }
    requires order { (q : ℕ × ℕ) → IsFrom q (other.x, other.y) → IsFromFirst q runs.now → HaveEnded q out.old.items }
    ensures cells { (q : ℕ × ℕ) → (in_runs out.new.items q || (in_runs result.now q && in_run other q))
        ≡ (in_runs out.old.items q || (in_runs runs.entry.now q && in_run other q)) }
    ensures within { (q : ℕ × ℕ) → in_run other q ≡ false → in_runs out.new.items q ≡ in_runs out.old.items q }
    ensures left { (prefix : List RunOf) × AreSplitAt (other.x + other.len, other.y) runs.entry.now prefix result.now }
    ensures runs { IsMaximalRuns out.new.items }
    ensures order { (q : ℕ × ℕ) → IsFrom q (other.x, other.y) → IsFromFirst q result.now → HaveEnded q out.new.items }
    ensures len { vec_len out.new + length result.now ≤ vec_len out.old + length runs.entry.now }
    ensures capacity { vec_capacity out.old ≤ vec_capacity out.new }
{
    let (_, rest) = split_at_start(runs, other);
    let (shared, rest) = split_at_end(rest, other);
    push_within(out, shared, other);
    rest
}

// The runs of the cells of both lists.
pub(crate) fn overlaps(
    alloc: Global,
    a: &[StoredRun],
    b: &[StoredRun],
) -> Result<Vec<StoredRun>, AllocError>
    requires first { IsMaximalRuns a.now }
    requires second { IsMaximalRuns b.now }
    ensures cells { IfOk result (λ v. (q : ℕ × ℕ) → in_runs v.items q ≡ (in_runs a.now q && in_runs b.now q)) }
    ensures runs { IfOk result (λ v. IsMaximalRuns v.items) }
{
    let mut out = Vec::with_capacity(alloc, a.len() + b.len())?;
    let (mut first, mut second) = (a, b);
    while let Some((next, _)) = second.split_first() {
        first = push_shared(&mut out, first, *next);
        let Some((next, _)) = first.split_first() else {
            return Ok(out);
        };
        second = push_shared(&mut out, second, *next);
    }
    Ok(out)
}

// The runs of the cells of the first list that the second one lacks.
pub(crate) fn remainders(
    alloc: Global,
    a: &[StoredRun],
    b: &[StoredRun],
) -> Result<Vec<StoredRun>, AllocError>
    requires first { IsMaximalRuns a.now }
    requires second { IsMaximalRuns b.now }
    ensures cells { IfOk result (λ v. (q : ℕ × ℕ) → in_runs v.items q ≡ (in_runs a.now q && not (in_runs b.now q))) }
    ensures runs { IfOk result (λ v. IsMaximalRuns v.items) }
{
    let mut out = Vec::with_capacity(alloc, a.len() + b.len())?;
    let (mut runs, mut cuts) = (a, b);
    while let Some((cut, _)) = cuts.split_first() {
        let rest = push_before(&mut out, runs, *cut);
        let Some((run, others)) = rest.split_first() else {
            return Ok(out);
        };
        cuts = push_gaps(&mut out, *run, cuts);
        runs = others;
    }
    push_runs(&mut out, runs);
    Ok(out)
}

// The runs of the cells that lie in the first `w` columns and the first `h` rows, once each is moved by
// `dx` columns and `dy` rows.
pub(crate) fn moved_runs(
    alloc: Global,
    runs: &[StoredRun],
    dx: i32,
    dy: i32,
    w: u32,
    h: u32,
) -> Result<Vec<StoredRun>, AllocError>
    requires runs { IsMaximalRuns runs.now }
    requires columns { w ≤ 4096 }
    requires rows { h ≤ 4096 }
    ensures cells { IfOk result (λ v. (q : ℕ × ℕ) → in_runs v.items q ≡ in_moved_runs runs.now dx dy w h q) }
    ensures runs { IfOk result (λ v. IsMaximalRuns v.items) }
{
    let mut out = Vec::with_capacity(alloc, runs.len())?;
    for run in runs {
        push_some(&mut out, run.moved(dx, dy, w, h));
    }
    Ok(out)
}

// Whether a cell is in one of the runs: only the first run that does not end before it can have it.
pub(crate) fn any_has(runs: &[StoredRun], x: u32, y: u32) -> bool
    requires { IsMaximalRuns runs.now }
    ensures { result ≡ in_runs runs.now (x, y) }
{
    let at = runs.partition_point(|run| run.ends_before(x, y));
    at < runs.len() && runs[at].has(x, y)
}
