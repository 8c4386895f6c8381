//! The frame law of lines, as functions that do nothing.
#![tactic(auto)]

ghost use Rattle.line_frames.specs.Frames.{InsideLaw, MergeLaw, OrderLaw, OutsideLaw};
ghost use Rattle.line_frames.specs.Lines.{LineLaw, LineMergeLaw, MoreLineLaw};

/// States that an edit changes nothing outside the places that it touches.
pub fn edits_stay_inside()
    ensures { OutsideLaw }
{}

/// States that what an edit puts where it touches depends on the edit, and on what stands at the places that it looks at, alone.
pub fn edits_depend_on_what_they_look_at()
    ensures { InsideLaw }
{}

/// States that two edits, neither of which touches what the other one looks at, do the same in either order.
pub fn edits_apart_are_done_in_any_order()
    ensures { OrderLaw }
{}

/// States that a merge by edits that look at nothing that ours changed holds each change of both sides.
pub fn merges_hold_both_sides()
    ensures { MergeLaw }
{}

/// States that a stamp, an erase, and a line that sets or removes a property or removes an object do what their edits do.
pub fn lines_are_edits()
    ensures { LineLaw }
{}

/// States that so do lines of own members, and those that put in or take out a property, or put in an object, that they say in JSON.
pub fn lines_for_all_edits_are_edits()
    ensures { MoreLineLaw }
{}

/// States that a merge by lines that are edits of the law, and look at nothing that ours changed, holds each change of both sides.
pub fn merges_by_lines_hold_both_sides()
    ensures { LineMergeLaw }
{}
