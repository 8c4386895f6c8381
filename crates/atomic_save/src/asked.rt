ghost use Rattle.std.specs.Prelude.{◌≡◌, ◌∷◌, [], ◌||◌, true, false};
ghost use Rattle.atomic_save.specs.Crash.{none_refused};
ghost use Rattle.atomic_save.specs.Note.{call_of};

use crate::call_log::CallLog;
use crate::request::Request;

/// What was asked of a folder so far, and whether a write or a sync was refused.
#[derive(Drop)]
pub(crate) struct Asked {
    has_failed: bool,
    log: CallLog,
    ghost known: { (has_failed || none_refused log.calls) ≡ true },
}

impl Asked {
    pub(crate) fn new() -> Asked
        ensures { result.log.calls ≡ [] }
    {
        Asked {
            has_failed: false,
            log: CallLog::new(),
        }
    }

    /// Whether a write or a sync was refused.
    pub(crate) fn has_failed(&self) -> bool
        ensures { result ≡ false → none_refused self.now.log.calls ≡ true }
    {
        self.has_failed
    }

    /// Notes a request, and whether it was answered that it is done.
    pub(crate) fn note(&mut self, request: &Request<'_>, is_done: bool)
        ensures { self.new.log.calls ≡ call_of request.now is_done ∷ self.old.log.calls }
    {
        match request {
            Request::Write(_) | Request::Sync | Request::SyncFolder if !is_done => {
                self.has_failed = true;
            }
            _ => {}
        }
        self.log.note(request, is_done);
    }
}
