// The ids of the kinds of changes that merge. Contracts name them too. A caller's own paints have ids above these.

/// Stamps on a tile layer.
pub const STAMP_ID: u32 = 1;

/// Erases on a tile layer.
pub const ERASE_ID: u32 = 2;

/// Moves of an object.
pub const MOVE_ID: u32 = 3;

/// Settings of a property.
pub const SET_ID: u32 = 4;

/// Settings of an own member.
pub const MEMBER_ID: u32 = 5;

/// Settings of several own members at once.
pub const MEMBERS_ID: u32 = 6;
