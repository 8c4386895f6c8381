use document_lines::Edit;
use undo_stack::Pushed;

/// Who is told, while a line is done, what becomes of its edit. What else the line does shows in how the documents stand before it
/// and after it.
pub trait Tell {
    /// This edit is to be committed.
    fn edit(&mut self, edit: &Edit);

    /// The edit was committed, and this is what it became. Where there is no memory, this is not told.
    fn pushed(&mut self, pushed: Pushed);
}

/// Nobody is told.
#[derive(Drop)]
pub struct NoTell;

impl Tell for NoTell {
    #[inline(always)]
    fn edit(&mut self, edit: &Edit) {
        let _ = edit;
    }

    #[inline(always)]
    fn pushed(&mut self, pushed: Pushed) {
        let _ = pushed;
    }
}
