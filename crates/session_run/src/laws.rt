//! Laws of runs, as functions that do nothing.

ghost use Rattle.session_run.specs.Journals.{HaveJournals, JournalsLead, RunsAreOne};

/// Each run has a journal: the lines that were accepted and are not quiet. It can be replayed from the start, each `save` as
/// `clean` and each `open` over the bytes that it found. So it leads to the same documents, with the same replies but those of a
/// `save`; and so does each way to replay it in which memory lasts and no store fails.
pub fn runs_have_journals()
    ensures { HaveJournals }
{}

/// Whatever journal is kept of a run over an honest store, by the bytes that its files had, each way to replay it in which memory
/// lasts and no store fails leads to the same documents.
pub fn journals_lead_to_the_same_documents()
    ensures { JournalsLead }
{}

/// Over an honest store there is one run of some lines in which memory lasts and the store never fails.
pub fn runs_are_one()
    ensures { RunsAreOne }
{}
