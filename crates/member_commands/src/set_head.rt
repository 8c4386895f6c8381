ghost use Rattle.std.specs.Prelude.{IsSome};

use map_model::MapText;

/// What is done with the own members of an owner.
#[derive(Drop)]
pub enum MemberEdit {
    /// The one with this name is set.
    Set(MapText),
    /// Several are set at once.
    Put,
    /// One is taken out.
    Remove,
}

/// An owner gets another head. The command holds the one that the owner does not have.
#[derive(Drop)]
pub struct SetHead<H> {
    pub(crate) id: u32,
    pub(crate) edit: MemberEdit,
    pub(crate) follows: bool,
    pub(crate) head: Option<H>,
    pub(crate) is_made: bool,
    // Whether the owner's head and the command's are the same.
    pub(crate) is_same: bool,
    ghost holds: { IsSome head },
}
