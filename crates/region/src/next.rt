// The next run of a row.
ghost use Rattle.std.specs.Prelude.{IfSome, IfNone};
ghost use Rattle.region.specs.Runs.{HasNone, IsMaximalRuns, IsNextRun, in_runs};

use crate::runs::Run;
use crate::stored::StoredRun;
use crate::walks::split_ended;

// The next cells of a row that lie side by side, from a column on and before an end.
pub(crate) fn next_in(runs: &[StoredRun], y: u32, from: u32, end: u32) -> Option<Run>
    requires { IsMaximalRuns runs.now }
    ensures some { IfSome result (IsNextRun (in_runs runs.now) y from end) }
    ensures none { IfNone result (HasNone (in_runs runs.now) y from end) }
{
    let (_, rest) = split_ended(runs, from, y);
    let Some((stored, _)) = rest.split_first() else {
        return None;
    };
    let run = stored.run();
    let start = run.x.max(from);
    let end = run.end().min(end);
    if run.y != y || end <= start {
        return None;
    }
    Some(Run {
        y,
        x: start,
        len: end - start,
    })
}
