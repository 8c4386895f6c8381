ghost use Rattle.std.specs.Prelude.{◌≡◌, ◌≤◌, ◌∷◌, ℕ, List, IsErrOf, IsTrue, OnOk};
ghost use Rattle.atomic_save.specs.Crash.{Call};
ghost use Rattle.map_store.specs.Asking.{Asked, loading, storing};
ghost use Rattle.map_store.specs.Files.{StoreParts, HasFailed};

use refusals::StoreFault;
use std::alloc::Global;

/// Keeps files by name.
///
/// What a call promises of the files holds of a store that is honest: of files in memory, and not of those that another
/// program can reach.
pub trait MapStore {
    ghost use Rattle.map_store.specs.Storing.{Loads, Stores};

    /// Its files, how often it has failed, and whether it does with its files what it says.
    ghost stored: { Self → StoreParts };

    /// What it was asked so far, the newest first.
    ghost asked: { Self → List Asked };

    /// The calls that its saves have made of a folder of the system, the newest first. Files in memory need none.
    ghost calls: { Self → List Call };

    /// Whether these bytes are kept under this name, wherever the machine stops until the next call.
    ghost keeps: { Self → List ℕ → List ℕ → Type 0 };

    /// Whether no file was lost from the first of these states to the second, wherever the machine stopped between them: under this
    /// name stands what stood there or these bytes, whole, and no other file has changed.
    ghost loses_nothing: { Self → Self → List ℕ → List ℕ → Type 0 };

    /// The bytes of a file. No file changes.
    ///
    /// `Missing` where there is no file of that name, `Device` where the device failed and `Memory` where there was no
    /// room for the bytes.
    fn load(&mut self, alloc: Global, name: &str) -> Result<Vec<u8>, StoreFault>
        ensures honest { IsTrue (stored self.old).honest → IsTrue (stored self.new).honest }
        ensures loads { IsTrue (stored self.old).honest → Loads name.now (stored self.old).files result (stored self.new).files }
        ensures device { IsErrOf result StoreFault.Device → HasFailed (stored self.old) (stored self.new) }
        ensures count { (stored self.old).failures ≤ (stored self.new).failures }
        ensures asked { asked self.new ≡ loading name.now ∷ asked self.old }
        ensures calls { calls self.new ≡ calls self.old };

    /// Puts bytes under a name, in place of those that are there. No other file changes.
    ///
    /// `Device` where the device failed: then that one file may be gone or hold anything. `Memory` where there was no
    /// memory: then no file has changed.
    fn store(&mut self, alloc: Global, name: &str, bytes: &[u8]) -> Result<(), StoreFault>
        ensures honest { IsTrue (stored self.old).honest → IsTrue (stored self.new).honest }
        ensures stores { IsTrue (stored self.old).honest → Stores name.now bytes.now (stored self.old).files result (stored self.new).files }
        ensures found { IsErrOf result StoreFault.Missing → ⊥ }
        ensures device { IsErrOf result StoreFault.Device → HasFailed (stored self.old) (stored self.new) }
        ensures count { (stored self.old).failures ≤ (stored self.new).failures }
        ensures asked { asked self.new ≡ storing name.now ∷ asked self.old }
        ensures kept { OnOk result (keeps self.new name.now bytes.now) }
        ensures safe { loses_nothing self.old self.new name.now bytes.now };
}
