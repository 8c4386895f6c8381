ghost use Rattle.std.specs.Prelude.{◌≡◌, List, [], ◌∷◌};
ghost use Rattle.std.specs.Borrow.{ftrue};
ghost use Rattle.std.specs.Coded.{coded_list};
ghost use Rattle.atomic_save.specs.Crash.{Call};
ghost use Rattle.atomic_save.specs.Note.{call_of, coded_call};

use crate::request::Request;
use std::marker::{Model, PhantomData};

/// The calls on a folder so far, the newest first. Only clauses read them: they take no memory.
#[derive(Drop)]
pub(crate) struct CallLog {
    marker: PhantomData<u8>,
    pub ghost calls: { List Call } by { coded_list coded_call },
}

impl Model for CallLog {
    ghost also_owns = { λ _. ftrue };
}

impl CallLog {
    pub(crate) fn new() -> CallLog
        ensures { result.calls ≡ [] }
    {
        CallLog {
            marker: PhantomData,
        }
    }

    /// Notes a request, and whether it was answered that it is done.
    pub(crate) fn note(&mut self, _request: &Request<'_>, _is_done: bool)
        ensures { self.new.calls ≡ call_of _request.now _is_done ∷ self.old.calls }
    {}
}
