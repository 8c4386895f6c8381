ghost use Rattle.std.specs.Prelude.{◌≡◌, ◌≤◌, length};
ghost use Rattle.refusals.specs.Words.{more_words};

use crate::edit_fault::EditFault;
use crate::map_refusal::MapRefusal;

/// Why an edit of own members is refused, or of what a line says as a file would. The document is then as it was.
#[derive(Clone, Copy, PartialEq, Eq, Debug)]
pub enum MoreFault {
    /// It is refused as other edits are.
    Edit(EditFault),
    /// A file that said this would be refused.
    Map(MapRefusal),
    /// Lines of their own change the member.
    MemberOfOtherLines,
    /// The owner has no such member.
    NoSuchMember,
}

impl MoreFault {
    /// Its number and its words.
    pub fn words(self) -> &'static str
        ensures value { result.now ≡ more_words self }
        ensures short { length result.now ≤ 100 }
    {
        match self {
            MoreFault::Edit(fault) => fault.words(),
            MoreFault::Map(refusal) => refusal.words(),
            MoreFault::MemberOfOtherLines => MEMBER_OF_OTHER_LINES,
            MoreFault::NoSuchMember => NO_SUCH_MEMBER,
        }
    }
}

/// The number and the words of a refusal to change a member that other lines change.
pub(crate) const MEMBER_OF_OTHER_LINES: &str = "41 member of other lines";

/// The number and the words of a refusal where the owner has no such member.
pub(crate) const NO_SUCH_MEMBER: &str = "42 no such member";
