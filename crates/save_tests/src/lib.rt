//! Saves into a folder in memory that stops at each call, and runs of calls that are no save.
#![tactic(auto)]

ghost use Rattle.std.specs.Prelude.{◌≢◌, ℕ, List, [], ◌∷◌, true, false};
ghost use Rattle.atomic_save.specs.Crash.{compared, removed, made, wrote, synced, renamed, folder_synced};
ghost use Rattle.atomic_save.specs.Saving.{LosesNothing, IsKept, Only};

#[cfg(test)]
mod stops;

/// What the model says of some runs of calls that are no save: each may lose a file.
pub fn wrong_runs()
    ensures written_in_place { (beside path bytes : List ℕ) → beside ≢ path → LosesNothing (Only beside) path bytes [] (made path true ∷ []) → ⊥ }
    ensures removed_first { (beside path bytes : List ℕ) → beside ≢ path → LosesNothing (Only beside) path bytes [] (removed path true ∷ []) → ⊥ }
    ensures renamed_too_soon { (beside path bytes : List ℕ) → beside ≢ path
        → LosesNothing (Only beside) path bytes [] (renamed beside path true ∷ wrote bytes true ∷ made beside true ∷ []) → ⊥ }

    // The old map is read, and written to.
    ensures appended { (beside path bytes old : List ℕ) → beside ≢ path
        → LosesNothing (Only beside) path bytes [] (wrote bytes true ∷ compared path old true ∷ []) → ⊥ }

    // A sync that failed is asked for again, and then believed.
    ensures synced_again { (beside path bytes : List ℕ) → beside ≢ path → LosesNothing (Only beside) path bytes []
        (renamed beside path true ∷ synced true ∷ synced false ∷ wrote bytes true ∷ made beside true ∷ []) → ⊥ }

    // The folder is not synced, so the new file may be gone.
    ensures not_kept { (beside path bytes : List ℕ) → beside ≢ path → IsKept path bytes
        (renamed beside path true ∷ synced true ∷ wrote bytes true ∷ made beside true ∷ []) → ⊥ }

    // A file that has the new bytes already is not synced.
    ensures not_synced { (path bytes : List ℕ) → IsKept path bytes (folder_synced true ∷ compared path bytes true ∷ []) → ⊥ }

    // It is synced, and believed, though a sync failed before.
    ensures failed_before { (path bytes : List ℕ)
        → IsKept path bytes (folder_synced true ∷ synced true ∷ compared path bytes true ∷ synced false ∷ []) → ⊥ }
{}
