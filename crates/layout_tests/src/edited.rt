// Texts laid out as a source: which lines an edit changes.
use crate::maps::{MINIMIZED, NODE, PYTHON, TILED};
use crate::replacing::{replaced, with_carriage_returns};
use map_layout::laid_out_like;
use std::alloc::{AllocError, Global};
use std::test::Fail;

// Whether a text, laid out as a source, gets these bytes.
fn gets(alloc: Global, text: &str, source: &str, wanted: &str) -> bool {
    match laid_out_like(alloc, text.as_bytes(), source.as_bytes()) {
        Ok(laid) => laid.as_slice() == wanted.as_bytes(),
        Err(_) => false,
    }
}

// An edit: what it replaces in the text that is saved, and in the source.
struct Edit {
    text: [&'static str; 2],
    source: [&'static str; 2],
}

// Whether an edited map gets the bytes of its source, where no more is replaced than the edit says.
fn changes_alone(alloc: Global, source: &str, edit: &Edit) -> Result<bool, AllocError> {
    let text = replaced(alloc, MINIMIZED, edit.text[0], edit.text[1])?;
    let wanted = replaced(alloc, source, edit.source[0], edit.source[1])?;
    Ok(
        text.as_str() != MINIMIZED
            && wanted.as_str() != source
            && gets(alloc, text.as_str(), source, wanted.as_str()),
    )
}

// The number of the first edit that changes other bytes.
fn first_other(alloc: Global, source: &str, edits: &[Edit]) -> Result<Option<usize>, AllocError> {
    for (at, edit) in edits.iter().enumerate() {
        if !changes_alone(alloc, source, edit)? {
            return Ok(Some(at));
        }
    }
    Ok(None)
}

#[test]
fn unchanged(rt: HostRuntime) -> Result<(), Fail> {
    let windows = with_carriage_returns(rt.alloc(), TILED)?;
    for source in [
        TILED,
        MINIMIZED,
        PYTHON,
        NODE,
        windows.as_str(),
        " {\n}\t\n",
    ] {
        assert!(rt;
            gets(
                rt.alloc(),
                if source.len() < 9 { "{}" } else { MINIMIZED },
                source,
                source
            )
        );
    }
    Ok(())
}

// What only looks like an escaped letter or slash is none: what stands behind a backslash that is escaped itself, and a control
// character, which each layout escapes.
#[test]
fn backslashes_and_controls(rt: HostRuntime) {
    let cases = [
        [
            "[\"C:\\\\ui\",\"é\"]",
            "[\n  \"C:\\\\ui\"\n]\n",
            "[\n  \"C:\\\\ui\",\n  \"é\"\n]\n",
        ],
        [
            "[\"C:\\\\/\",\"a/b\"]",
            "[\n  \"C:\\\\/\"\n]\n",
            "[\n  \"C:\\\\/\",\n  \"a/b\"\n]\n",
        ],
        [
            "[\"\\u001f\",\"é\"]",
            "[\n  \"\\u001f\"\n]\n",
            "[\n  \"\\u001f\",\n  \"é\"\n]\n",
        ],
        [
            "[\"ö\",\"é\"]",
            "[\n  \"\\u00f6\"\n]\n",
            "[\n  \"\\u00f6\",\n  \"\\u00e9\"\n]\n",
        ],
    ];
    for [text, source, wanted] in cases {
        assert!(rt; gets(rt.alloc(), text, source, wanted));
    }
}

const STAMP: [&str; 2] = ["[1,2,3,0,1,4]", "[1,2,2,0,1,4]"];

const MOVE: [&str; 2] = ["\"x\":8,\"y\":12.5", "\"x\":24,\"y\":28.5"];

const RENAME: [&str; 2] = ["\"name\":\"Things\"", "\"name\":\"a\\/b\""];

const ADD_PROPERTY: [&str; 2] = [
    "}],\"renderorder\"",
    "},{\"name\":\"big\",\"type\":\"int\",\"value\":5}],\"renderorder\"",
];

const FIRST_PROPERTY: [&str; 2] = [
    ",\"rotation\":0,",
    ",\"properties\":[{\"name\":\"big\",\"type\":\"int\",\"value\":5}],\"rotation\":0,",
];

const ADD_LAYER: [&str; 2] = [
    "}],\"nextlayerid\":4",
    "},{\"id\":4,\"name\":\"New\",\"objects\":[]}],\"nextlayerid\":5",
];

const REMOVE_OBJECT: [&str; 2] = [
    "{\"height\":16,\"id\":1,\"name\":\"door\",\"rotation\":0,\"type\":\"\",\"visible\":true,\"width\":16,\"x\":8,\"y\":12.5},",
    "",
];

const KIND: [&str; 2] = ["{\"x\":0,\"y\":4}", "null"];

const IN_TILED: [Edit; 8] = [
    Edit {
        text: STAMP,
        source: ["[1, 2, 3, 0, 1, 4]", "[1, 2, 2, 0, 1, 4]"],
    },
    Edit {
        text: MOVE,
        source: [
            "\"x\":8,\n                 \"y\":12.5",
            "\"x\":24,\n                 \"y\":28.5",
        ],
    },
    Edit {
        text: RENAME,
        source: ["\"name\":\"Things\"", "\"name\":\"a\\/b\""],
    },
    Edit {
        text: ADD_PROPERTY,
        source: [
            "        }],\n \"renderorder\"",
            "        }, \n        {\n         \"name\":\"big\",\n         \"type\":\"int\",\n         \"value\":5\n        }],\n \"renderorder\"",
        ],
    },
    Edit {
        text: FIRST_PROPERTY,
        source: [
            "                 \"rotation\":0,",
            "                 \"properties\":[\n                        {\n                         \"name\":\"big\",\n                         \"type\":\"int\",\n                         \"value\":5\n                        }],\n                 \"rotation\":0,",
        ],
    },
    Edit {
        text: ADD_LAYER,
        source: [
            "        }],\n \"nextlayerid\":4",
            "        }, \n        {\n         \"id\":4,\n         \"name\":\"New\",\n         \"objects\":[]\n        }],\n \"nextlayerid\":5",
        ],
    },
    Edit {
        text: REMOVE_OBJECT,
        source: [
            "                {\n                 \"height\":16,\n                 \"id\":1,\n                 \"name\":\"door\",\n                 \"rotation\":0,\n                 \"type\":\"\",\n                 \"visible\":true,\n                 \"width\":16,\n                 \"x\":8,\n                 \"y\":12.5\n                }, \n",
            "",
        ],
    },
    Edit {
        text: KIND,
        source: [
            "\n            {\n             \"x\":0,\n             \"y\":4\n            }",
            "null",
        ],
    },
];

#[test]
fn edited_in_tiled(rt: HostRuntime) -> Result<(), Fail> {
    assert_eq!(rt; first_other(rt.alloc(), TILED, &IN_TILED)?, None);
    Ok(())
}

const IN_MINIMIZED: [Edit; 5] = [
    Edit {
        text: STAMP,
        source: STAMP,
    },
    Edit {
        text: MOVE,
        source: MOVE,
    },
    Edit {
        text: RENAME,
        source: RENAME,
    },
    Edit {
        text: ADD_PROPERTY,
        source: ADD_PROPERTY,
    },
    Edit {
        text: ADD_LAYER,
        source: ADD_LAYER,
    },
];

#[test]
fn edited_in_minimized(rt: HostRuntime) -> Result<(), Fail> {
    assert_eq!(rt; first_other(rt.alloc(), MINIMIZED, &IN_MINIMIZED)?, None);
    Ok(())
}

const IN_NODE: [Edit; 4] = [
    Edit {
        text: STAMP,
        source: ["        3,\n        0,", "        2,\n        0,"],
    },
    Edit {
        text: RENAME,
        source: ["\"name\": \"Things\"", "\"name\": \"a/b\""],
    },
    Edit {
        text: ADD_PROPERTY,
        source: [
            "    }\n  ],\n  \"renderorder\"",
            "    },\n    {\n      \"name\": \"big\",\n      \"type\": \"int\",\n      \"value\": 5\n    }\n  ],\n  \"renderorder\"",
        ],
    },
    Edit {
        text: ADD_LAYER,
        source: [
            "    }\n  ],\n  \"nextlayerid\": 4",
            "    },\n    {\n      \"id\": 4,\n      \"name\": \"New\",\n      \"objects\": []\n    }\n  ],\n  \"nextlayerid\": 5",
        ],
    },
];

#[test]
fn edited_in_node(rt: HostRuntime) -> Result<(), Fail> {
    assert_eq!(rt; first_other(rt.alloc(), NODE, &IN_NODE)?, None);
    Ok(())
}

// A source in rows, with an order of its members and lines of its own.
#[test]
fn by_hand(rt: HostRuntime) {
    let source =
        "{ \"width\":2, \"height\":2,\n \"data\":[\n  1, 2,\n  3, 4 ],\n\n \"class\":1.50 }\n";
    let text = "{\"class\":1.5,\"data\":[1,2,9,4],\"height\":2,\"name\":\"\",\"width\":2}";
    let wanted =
        "{ \"width\":2, \"height\":2,\n \"data\":[\n  1, 2,\n  9, 4 ],\n\n \"class\":1.50, \"name\":\"\" }\n";
    assert!(rt; gets(rt.alloc(), text, source, wanted));
}

// Cells keep their bytes and what stands between them; others come where they differ, and behind them where there are more. A number
// that is no cell keeps its spelling too.
#[test]
fn cells(rt: HostRuntime) {
    let source =
        "{ \"a\":[1, 2,  3 ,4\n],\n \"b\":[ [5 ,6], [7, 8] ], \"c\":[ 9 ], \"d\":[1.50, 2, -3] }";
    let cases = [
        [
            "{\"a\":[1,2,0,4],\"b\":[[5,6],[7,18446744073709551615]],\"c\":[9],\"d\":[1.5,2,-4]}",
            "{ \"a\":[1, 2,  0 ,4\n],\n \"b\":[ [5 ,6], [7, 18446744073709551615] ], \"c\":[ 9 ], \"d\":[1.50, 2, -4] }",
        ],
        [
            "{\"a\":[1,2,3,4,5],\"b\":[[5],[7,8,8]],\"c\":[9],\"d\":[1.5,2]}",
            "{ \"a\":[1, 2, 3, 4, 5\n],\n \"b\":[ [5], [7, 8, 8] ], \"c\":[ 9 ], \"d\":[1.50, 2] }",
        ],
        [
            "{\"a\":[],\"b\":[[5,6],[7,8]],\"c\":9,\"d\":[1.5,2,-3]}",
            "{ \"a\":[],\n \"b\":[ [5 ,6], [7, 8] ], \"c\":9, \"d\":[1.50, 2, -3] }",
        ],
        [
            "{\"a\":[1,2,3,4],\"b\":[[5,6],[7,8]],\"c\":[true],\"d\":[1.5,2,-3]}",
            "{ \"a\":[1, 2,  3 ,4\n],\n \"b\":[ [5 ,6], [7, 8] ], \"c\":[ true ], \"d\":[1.50, 2, -3] }",
        ],
    ];
    for [text, wanted] in cases {
        assert!(rt; gets(rt.alloc(), text, source, wanted));
    }
    // What stands for cells that were dropped is no cell itself.
    let odd = "{ \"a\":[ {\"roskevad\":null} ], \"b\":[1, 2]}";
    let wanted = "{ \"a\":[ {\"roskevad\":null} ], \"b\":[1, 3]}";
    assert!(rt;
        gets(
            rt.alloc(),
            "{\"a\":[{\"roskevad\":null}],\"b\":[1,3]}",
            odd,
            wanted
        )
    );
}

// Tiled's layout where the source is no JSON; and no name stands twice in what is given.
#[test]
fn broken_sources(rt: HostRuntime) {
    let tiled = "{ \"a\":2\n}";
    assert!(rt; gets(rt.alloc(), "{\"a\":2}", "", tiled));
    assert!(rt; gets(rt.alloc(), "{\"a\":2}", "{\"a\":2", tiled));
    assert!(rt;
        gets(
            rt.alloc(),
            "{\"a\":2}",
            "{\"a\":1, \"a\":2}",
            "{\"a\":1, \"a\":2}"
        )
    );
    assert!(rt; gets(rt.alloc(), "{\"a\":3}", "{\"a\":1,\"a\":2}", "{\"a\":3}"));
}
