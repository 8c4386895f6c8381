// What lines leave of an object's members where fractions are set aside, by the rules of the page of map files: a stand-in has the
// upper and the lower half of the float's 64 bits, 0x3FF80000_00000000 for 1.5 and 0x40040000_00000000 for 2.5.
use fractions::{Fractions, Moved, Place, UNMOVED};
use map_json::{given_tileset, json_word, json_words};
use map_values::{JsonObject, MapFault};
use refusals::MapRefusal;
use serde_json::Value;
use std::test::Fail;

const NOTE: &str = "{\"roskevad\":{\"x\":{\"roskevad\":[1073217536,0]}},\"x\":1}";

/// The members of an object, those that a line says, and the object's members after it.
const PUT: [(&str, &str, &str); 7] = [
    ("{}", "{\"x\":1.5}", NOTE),
    (NOTE, "{\"x\":2}", "{\"x\":2}"),
    (NOTE, "{\"x\":1.5}", NOTE),
    (
        NOTE,
        "{\"width\":2.5}",
        "{\"roskevad\":{\"width\":{\"roskevad\":[1074003968,0]},\"x\":{\"roskevad\":[1073217536,0]}},\"width\":2,\"x\":1}",
    ),
    (
        NOTE,
        "{\"width\":2}",
        "{\"roskevad\":{\"x\":{\"roskevad\":[1073217536,0]}},\"width\":2,\"x\":1}",
    ),
    (
        NOTE,
        "{\"a\":{\"x\":2.5}}",
        "{\"a\":{\"x\":{\"roskevad\":[1074003968,0]}},\"roskevad\":{\"x\":{\"roskevad\":[1073217536,0]}},\"x\":1}",
    ),
    (
        "{\"x\":1}",
        "{\"y\":-1.5}",
        "{\"roskevad\":{\"y\":{\"roskevad\":[3220701184,0]}},\"x\":1,\"y\":-2}",
    ),
];

/// An object of a map that was infinite, and is saved 48 pixels further to the left and 32 further down: the note of 49.5 is that of
/// 1.5, and the note of -29.5 is that of 2.5.
const MOVED: (&str, &str) = (
    "{\"height\":2.5,\"x\":49.5,\"y\":-29.5}",
    "{\"height\":2,\"roskevad\":{\"height\":{\"roskevad\":[1074003968,0]},\"x\":{\"roskevad\":[1073217536,0]},\"y\":{\"roskevad\":[1074003968,0]}},\"x\":49,\"y\":-30}",
);

/// The members of an object, the name that a line takes out, and what is left.
const REMOVED: [(&str, &str, &str); 3] = [
    (NOTE, "x", "{}"),
    (NOTE, "y", NOTE),
    (
        "{\"roskevad\":{\"x\":{\"roskevad\":[1073217536,0]},\"y\":{\"roskevad\":[1073217536,0]}},\"x\":1,\"y\":1}",
        "x",
        "{\"roskevad\":{\"y\":{\"roskevad\":[1073217536,0]}},\"y\":1}",
    ),
];

fn is_text_of(rt: HostRuntime, members: JsonObject, text: &str) -> Result<bool, Fail> {
    let value = members.into_value();
    Ok(serde_json::to_string(rt.alloc(), &value)?.as_str() == text)
}

#[test]
fn members_go_in_with_their_notes(rt: HostRuntime) -> Result<(), Fail> {
    for (own, said, after) in PUT {
        let Some(mut members) = JsonObject::from_value(Value::from_str(rt.alloc(), own)?) else {
            panic!(rt; "no object");
        };
        let Ok(words) = json_words(rt.alloc(), Fractions::SetAside, Place::Object, said) else {
            panic!(rt; "no members");
        };
        members.put_words(
            rt.alloc(),
            Fractions::SetAside,
            Place::Object,
            UNMOVED,
            words,
        )?;
        assert!(rt; is_text_of(rt, members, after)?, "{own} {after}");
    }
    Ok(())
}

#[test]
fn notes_are_of_the_place_where_an_object_is_saved(rt: HostRuntime) -> Result<(), Fail> {
    let (said, wanted) = MOVED;
    let Ok(words) = json_words(rt.alloc(), Fractions::SetAside, Place::Object, said) else {
        panic!(rt; "no members");
    };
    let moved = Moved { x: -48, y: 32 };
    let members = words.said(rt.alloc(), Fractions::SetAside, Place::Object, moved)?;
    assert!(rt; is_text_of(rt, members, wanted)?);
    Ok(())
}

#[test]
fn members_go_out_with_their_notes(rt: HostRuntime) -> Result<(), Fail> {
    for (own, name, after) in REMOVED {
        let Some(mut members) = JsonObject::from_value(Value::from_str(rt.alloc(), own)?) else {
            panic!(rt; "no object");
        };
        members.remove_word(rt.alloc(), Fractions::SetAside, Place::Object, name)?;
        assert!(rt; is_text_of(rt, members, after)?, "{own} {after}");
    }
    Ok(())
}

#[test]
fn notes_stay_where_fractions_are_refused(rt: HostRuntime) -> Result<(), Fail> {
    let Some(mut members) = JsonObject::from_value(Value::from_str(rt.alloc(), NOTE)?) else {
        panic!(rt; "no object");
    };
    members.put_word(
        rt.alloc(),
        Fractions::Refused,
        Place::Object,
        UNMOVED,
        "x",
        Value::from(2_u32),
    )?;
    assert!(rt;
        is_text_of(
            rt,
            members,
            "{\"roskevad\":{\"x\":{\"roskevad\":[1073217536,0]}},\"x\":2}"
        )?
    );
    Ok(())
}

fn refusal(rt: HostRuntime, fractions: Fractions, text: &str) -> Option<MapRefusal> {
    match json_word(rt.alloc(), fractions, Place::Elsewhere, text) {
        Err(MapFault::Refused(refusal)) => Some(refusal),
        _ => None,
    }
}

#[test]
fn words_are_refused_in_order(rt: HostRuntime) -> Result<(), Fail> {
    assert!(rt; refusal(rt, Fractions::Refused, "1.5") == Some(MapRefusal::Fraction));
    assert!(rt; refusal(rt, Fractions::SetAside, "1.5").is_none());
    assert!(rt;
        refusal(rt, Fractions::SetAside, "{\"roskevad\":1.5}")
            == Some(MapRefusal::MemberOfAnotherKind)
    );
    match given_tileset(rt.alloc(), Fractions::SetAside, "1.5") {
        Err(MapFault::Refused(MapRefusal::MemberOfAnotherKind)) => Ok(()),
        _ => panic!(rt; "a tileset"),
    }
}
