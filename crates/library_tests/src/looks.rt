// What no clause says of a look at the bytes: that it answers `true` at all, and for which texts.
use tiled_maps::needs_nothing;

const NEEDS_NOTHING: [&str; 8] = [
    "{ \"height\":2,\n \"infinite\":false,\n \"layers\":[\n  {\"data\":[0, 1, 2147483649, 3221225479], \"opacity\":1, \"visible\":true}],\n \"version\":\"1.8\"\n}",
    "{\"infinite\": false, \"class\": null, \"x\": -3, \"id\": 123456789012345678}",
    "{\"data\":\"AQAAAP\\/\\/AAA=\", \"image\":\"..\\/tiles.png\"}",
    "{\"name\":\"\\u00dcber \\\"Q\\\" \\\\ \\/\", \"value\":\"a\\nb\"}",
    "{\"name\":\"\\ud83d\\ude00 \\u0041\"}",
    "{\"roskevads\":[], \"a roskevad\":{}, \"infinitely\":1}",
    "{}\n",
    "{\"a\":[0,10, 200,3 ,\n4]}",
];

const PERHAPS: [&str; 24] = [
    "{\"x\":1.5}",
    "{\"version\":1.10}",
    "{\"x\":2e3}",
    "{\"x\":2E3}",
    "{\"x\":-0}",
    "{\"x\":-0.0}",
    "{\"x\":-}",
    "{\"x\":1234567890123456789}",
    "{\"x\":-1234567890123456789}",
    "{\"roskevad\":1}",
    "{\"a\":[{\"roskevad\":1}]}",
    "{\"\\u0072oskevad\":1}",
    "{\"rosk\\u0065vad\":1}",
    "{\"infinite\":true}",
    "{\"infinite\" :false}",
    "{\"infinite\":\t\tfalse}",
    "[\"infinite\"]",
    "{\"name\":\"\\u00",
    "{\"name\":\"a",
    "tru\"",
    "+1",
    "{\"x\":01}",
    "{\"x\":[01,2]}",
    "",
];

// The first of some texts of which a look does not say that, or says that, it needs nothing.
fn first_other<'a>(texts: &[&'a str], needs_none: bool) -> Option<&'a str> {
    let other = texts
        .iter()
        .find(|text| needs_nothing(text.as_bytes()) != needs_none)?;
    Some(*other)
}

#[test]
fn what_needs_nothing(rt: HostRuntime) {
    assert_eq!(rt; first_other(&NEEDS_NOTHING, true), None);
}

#[test]
fn what_may_need_something(rt: HostRuntime) {
    assert_eq!(rt; first_other(&PERHAPS, false), None);
}
