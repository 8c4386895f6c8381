// Runs that are moved and cut.
ghost use Rattle.std.specs.Prelude.{◌≡◌, ℕ, ℤ, pos, ◌+ℤ◌, ◌≤ℤ◌, ◌<ℤ◌, ◌<◌, ◌≤◌, IfSome, IfNone};
ghost use Rattle.region.specs.Runs.{IsRun};
ghost use Rattle.region.specs.Walks.{LiesWithinMoved, in_option, in_moved_run};

use crate::runs::Run;
use crate::stored::StoredRun;

impl StoredRun {
    // The run, moved by `dx` columns and `dy` rows, and cut to the first `w` columns and the first `h`
    // rows.
    pub(crate) fn moved(self, dx: i32, dy: i32, w: u32, h: u32) -> Option<StoredRun>
        requires run { IsRun self }
        requires columns { w ≤ 4096 }
        requires rows { h ≤ 4096 }
        ensures cells { (q : ℕ × ℕ) → in_option result q ≡ in_moved_run self dx dy w h q }
        ensures within { IfSome result (λ r. LiesWithinMoved dx dy r self) }
        ensures fits { IfSome result IsRun }
    {
        let own = self.run();
        let y = moved_row(own.y, dy, h)?;
        let start = moved_column(own.x, dx, w);
        let end = moved_column(own.end(), dx, w);
        if end <= start {
            return None;
        }
        Some(StoredRun::of(Run {
            y,
            x: start,
            len: end - start,
        }))
    }
}

// A row moved by `by` rows, if it is then one of the first `limit` rows.
pub(crate) fn moved_row(row: u32, by: i32, limit: u32) -> Option<u32>
    ensures some { IfSome result (λ r. (r < limit) × (pos r ≡ pos row +ℤ by)) }
    ensures none { IfNone result ((k : ℕ) → k < limit → pos k ≡ pos row +ℤ by → ⊥) }
{
    match row.checked_add_signed(by) {
        Some(moved) if moved < limit => Some(moved),
        _ => None,
    }
}

// A column moved by `by` columns, or the nearest one from 0 up to `limit`.
fn moved_column(column: u32, by: i32, limit: u32) -> u32
    ensures within { result ≤ limit }
    ensures behind { (k : ℕ) → k < limit → result ≤ k → (pos column +ℤ by) ≤ℤ pos k }
    ensures before { (k : ℕ) → k < result → pos k <ℤ (pos column +ℤ by) }
{
    column.saturating_add_signed(by).min(limit)
}
