// Texts in each layout, and the faults.
use crate::maps::{MINIMIZED, TILED};
use crate::replacing::{replaced, with_carriage_returns};
use map_layout::{Layout, LayoutFault, LineEnd, lay_out};
use std::alloc::{AllocError, Global};
use std::test::Fail;

// Whether a text gets these bytes in a layout.
fn gets(alloc: Global, text: &str, layout: Layout, wanted: &str) -> bool {
    match lay_out(alloc, text.as_bytes(), layout) {
        Ok(laid) => laid.as_slice() == wanted.as_bytes(),
        Err(_) => false,
    }
}

#[test]
fn as_tiled(rt: HostRuntime) {
    assert!(rt; gets(rt.alloc(), MINIMIZED, Layout::Tiled(LineEnd::Lf), TILED));
}

#[test]
fn as_tiled_on_windows(rt: HostRuntime) -> Result<(), Fail> {
    let wanted = with_carriage_returns(rt.alloc(), TILED)?;
    assert!(rt;
        gets(
            rt.alloc(),
            MINIMIZED,
            Layout::Tiled(LineEnd::CrLf),
            wanted.as_str()
        )
    );
    Ok(())
}

#[test]
fn as_tiled_minimizes(rt: HostRuntime) {
    assert!(rt; gets(rt.alloc(), TILED, Layout::Minimized, MINIMIZED));
}

// Each row of the layer begins a line.
#[test]
fn in_rows(rt: HostRuntime) -> Result<(), Fail> {
    let rows = "[\n            1, 2, 3, \n            0, 1, 4]";
    let wanted = replaced(rt.alloc(), TILED, "[1, 2, 3, 0, 1, 4]", rows)?;
    assert!(rt;
        gets(
            rt.alloc(),
            MINIMIZED,
            Layout::Rows(LineEnd::Lf),
            wanted.as_str()
        )
    );
    Ok(())
}

#[test]
fn compact(rt: HostRuntime) -> Result<(), Fail> {
    let text = replaced(rt.alloc(), MINIMIZED, "H\\u00f6he", "Höhe")?;
    let text = replaced(rt.alloc(), text.as_str(), "sea\\/calm", "sea/calm")?;
    let wanted = replaced(rt.alloc(), text.as_str(), "1e-05", "0.00001")?;
    assert!(rt; gets(rt.alloc(), TILED, Layout::Compact, wanted.as_str()));
    Ok(())
}

// As `%.15g` of C writes them; but a float stays one, and keeps digits beyond 15.
#[test]
fn numbers(rt: HostRuntime) {
    let text =
        "[0.0001,0.00001,5e-324,1e-100,0.1,413.333,-2.5,999999999999999.9,123456789012345.6,1e14,1e15,1.5e300,3.0,-0.0,0,-7,18446744073709551615]";
    let wanted =
        "[0.0001, 1e-05, 5e-324, 1e-100, 0.1, 413.333, -2.5, 999999999999999.9, 123456789012345.6, 100000000000000.0, 1e+15, 1.5e+300, 3.0, -0.0, 0, -7, 18446744073709551615]";
    assert!(rt; gets(rt.alloc(), text, Layout::Tiled(LineEnd::Lf), wanted));
}

#[test]
fn letters(rt: HostRuntime) {
    let text = "[\"a\\u0001\\b\\f\\n\\r\\t\\\"\\\\/\\u007fé\\ud83d\\ude00\"]";
    let escaped = "[\"a\\u0001\\b\\f\\n\\r\\t\\\"\\\\\\/\u{7f}\\u00e9\\ud83d\\ude00\"]";
    let plain = "[\"a\\u0001\\b\\f\\n\\r\\t\\\"\\\\/\u{7f}é😀\"]";
    assert!(rt; gets(rt.alloc(), text, Layout::Tiled(LineEnd::Lf), escaped));
    assert!(rt; gets(rt.alloc(), text, Layout::Minimized, escaped));
    assert!(rt; gets(rt.alloc(), text, Layout::Compact, plain));
}

#[test]
fn empty(rt: HostRuntime) {
    let wanted = "{ \"a\":[],\n \"b\":\n    {\n\n    }\n}";
    assert!(rt;
        gets(
            rt.alloc(),
            "{\"b\":{},\"a\":[]}",
            Layout::Tiled(LineEnd::Lf),
            wanted
        )
    );
}

// So many arrays in one another.
fn nested(alloc: Global, count: u32) -> Result<String, AllocError> {
    let mut text = String::new(alloc);
    for _ in 0..count {
        text.push('[')?;
    }
    for _ in 0..count {
        text.push(']')?;
    }
    Ok(text)
}

#[test]
fn faults(rt: HostRuntime) -> Result<(), Fail> {
    let most = nested(rt.alloc(), 127)?;
    assert!(rt;
        gets(
            rt.alloc(),
            most.as_str(),
            Layout::Tiled(LineEnd::Lf),
            most.as_str()
        )
    );
    let deep = nested(rt.alloc(), 128)?;
    assert!(rt; lay_out(rt.alloc(), deep.as_bytes(), Layout::Compact) == Err(LayoutFault::TooDeep));
    for text in ["", "{", "{\"a\":1}}", "[1e999]", "[\"[[[\""] {
        assert!(rt;
            lay_out(rt.alloc(), text.as_bytes(), Layout::Compact) == Err(LayoutFault::NotJson)
        );
    }
    Ok(())
}
