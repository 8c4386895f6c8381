ghost use Rattle.std.specs.Prelude.{◌≡◌, IfErr};
ghost use Rattle.refusals.specs.declared.line_fault.LineFault.TheVariants.{BadWord};
ghost use Rattle.session.specs.Grammar.{Gives, choose, read};
ghost use Rattle.session.specs.Left.{fault_at, next};
ghost use Rattle.session.specs.MoreGrammar.{member_lines, put_members_form, remove_member_form, set_member_form};
ghost use Rattle.session.specs.Words.{member_owner_of, owner_of_members, tileset_of};

use crate::fields::{Fields, known};
use crate::more_line::MoreLine;
use crate::property_lines::{key, owner};
use crate::trail::{Expected, Trail};
use crate::words::{cut, number_before};
use map_model::{MemberOwner, Owner};
use refusals::LineFault;

// What has properties has own members.
fn owner_of_members(owner: Owner) -> MemberOwner
    ensures { result ≡ owner_of_members owner }
{
    match owner {
        Owner::Map => MemberOwner::Map,
        Owner::Layer(layer) => MemberOwner::Layer(layer),
        Owner::Object(object) => MemberOwner::Object(object),
    }
}

// The first id of the tileset that a word is.
fn tileset(word: &str) -> Option<u32>
    ensures { result ≡ tileset_of word.now }
{
    let (kind, id) = cut(word, b':');
    let Some(id) = id else {
        return None;
    };
    match number_before(id, b':') {
        Some((id, None)) => { if kind == "tileset" { Some(id) } else { None } }
        Some((_, Some(_))) => None,
        None => None,
    }
}

// The owner of members that a word is.
fn member_owner(word: &str) -> Option<MemberOwner>
    ensures { result ≡ member_owner_of word.now }
{
    match owner(word) {
        Some(owner) => Some(owner_of_members(owner)),
        None => match tileset(word) {
            Some(first_id) => Some(MemberOwner::Tileset(first_id)),
            None => None,
        },
    }
}

#[tactic(auto, unfolding(crate::specs::Grammar::word_at))]
fn set_member<'a, T: Trail + Copy>(
    follows: bool,
    fields: &mut Fields<'a, T>,
) -> Result<MoreLine<'a>, LineFault>
    ensures value { Gives (λ x. x) result (read (set_member_form follows) fields.old.words) }
    ensures place { IfErr result (λ _. fields.new.place ≡ fault_at (set_member_form follows) (next fields.old.place) fields.old.words) }
{
    let owner = known(member_owner(fields.word(Expected::MemberOwner)?))?;
    let name = known(key(fields.word(Expected::Key)?))?;
    let json = fields.json()?;
    Ok(MoreLine::SetMember {
        owner,
        name,
        json,
        follows,
    })
}

#[tactic(auto, unfolding(crate::specs::Grammar::word_at))]
fn put_members<'a, T: Trail + Copy>(
    follows: bool,
    fields: &mut Fields<'a, T>,
) -> Result<MoreLine<'a>, LineFault>
    ensures value { Gives (λ x. x) result (read (put_members_form follows) fields.old.words) }
    ensures place { IfErr result (λ _. fields.new.place ≡ fault_at (put_members_form follows) (next fields.old.place) fields.old.words) }
{
    let owner = known(member_owner(fields.word(Expected::MemberOwner)?))?;
    let json = fields.json()?;
    Ok(MoreLine::PutMembers {
        owner,
        json,
        follows,
    })
}

#[tactic(auto, unfolding(crate::specs::Grammar::word_at))]
fn remove_member<'a, T: Trail + Copy>(fields: &mut Fields<'a, T>) -> Result<MoreLine<'a>, LineFault>
    ensures value { Gives (λ x. x) result (read remove_member_form fields.old.words) }
    ensures place { IfErr result (λ _. fields.new.place ≡ fault_at remove_member_form (next fields.old.place) fields.old.words) }
{
    let owner = known(member_owner(fields.word(Expected::MemberOwner)?))?;
    let name = known(key(fields.word(Expected::Key)?))?;
    fields.end()?;
    Ok(MoreLine::RemoveMember { owner, name })
}

/// The line of own members that the words behind `member` are.
pub fn member<'a, T: Trail + Copy>(fields: &mut Fields<'a, T>) -> Result<MoreLine<'a>, LineFault>
    ensures value { Gives (λ x. x) result (read (choose member_lines BadWord) fields.old.words) }
    ensures place { IfErr result (λ _. fields.new.place ≡ fault_at (choose member_lines BadWord) (next fields.old.place) fields.old.words) }
{
    let action = fields.word(Expected::Action)?;
    match action {
        "set" => set_member(false, fields),
        "set+" => set_member(true, fields),
        "put" => put_members(false, fields),
        "put+" => put_members(true, fields),
        "remove" => remove_member(fields),
        _ => Err(LineFault::BadWord),
    }
}
