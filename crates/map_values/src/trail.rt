//! The way of a reader through a file, by which a fault has a place.

/// A step from a value of a file to one in it.
#[derive(Clone, Copy)]
pub enum Segment<'a> {
    /// To the member of this name, which may be absent.
    Member(&'a str),
    /// To the element at this place, counted from 0.
    Element(usize),
}

/// What is told of the way of a reader. The reader begins at the root, and leaves what has no fault.
pub trait Trail {
    /// The reader goes a step on.
    fn enter(&mut self, step: Segment<'_>);

    /// The reader goes back by its last step.
    fn leave(&mut self);
}

/// A trail that keeps nothing.
#[derive(Clone, Copy)]
pub struct NoTrail;

impl Trail for NoTrail {
    #[inline(always)]
    fn enter(&mut self, _step: Segment<'_>) {}

    #[inline(always)]
    fn leave(&mut self) {}
}
