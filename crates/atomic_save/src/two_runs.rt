ghost use Rattle.std.specs.Prelude.{◌≡◌, ◌≢◌, ℕ, List, Bool, false, None, Some};
ghost use Rattle.atomic_save.specs.Crash.{Found};
ghost use Rattle.atomic_save.specs.TwoRuns.{AreCareful, HasPutLast, IsWhole, MayBeFoundThen, Scene, Stands, Turn, first_save, own};

/// Wherever the machine stops while two careful runs save in one folder, each path that is none of a new file has the file that it
/// had at first, or whole bytes that one of the runs has written.
pub fn two_runs_lose_nothing()
    ensures { (is_new : List ℕ → Bool) (turns : List Turn) → ((run : Bool) → AreCareful is_new (own run turns)) → (start found : Found)
        → MayBeFoundThen start turns found → (path : List ℕ) → is_new path ≡ false → IsWhole start turns path found }
{}

/// What a run has put under a path stays there, wherever the machine stops, until a run puts another file there.
pub fn the_last_stays()
    ensures { (is_new : List ℕ → Bool) (turns : List Turn) → ((run : Bool) → AreCareful is_new (own run turns)) → (start found : Found)
        → MayBeFoundThen start turns found → (path : List ℕ) → is_new path ≡ false → (run : Bool) (bytes : List ℕ)
        → HasPutLast run path bytes turns → found path ≡ Some bytes }
{}

/// A save into a folder stands in the model of two runs, so that their laws speak of it.
pub fn a_save_stands()
    ensures { (start : Found) (beside path bytes : List ℕ) → beside ≢ path → start beside ≡ None
        → (s : Scene) × Stands start (first_save beside path bytes) s }
{}
