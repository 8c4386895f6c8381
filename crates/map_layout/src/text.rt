//! From text to text. What is printed is read again, and is given only if it has the same tree.

ghost use Rattle.std.specs.Prelude.{◌≡◌, ◌≤◌, IfOk, IfSome, IsTrue, Some, option_map};
ghost use Rattle.serde_json.specs.Data.{depth};
ghost use Rattle.serde_json.specs.Read.{max_depth};
ghost use Rattle.serde_json.specs.View.{view as data_of};
ghost use Rattle.json_trees.specs.Texts.{IsTreeOf};
ghost use Rattle.map_layout.specs.Laid.{LaysOut, Keeps, Reads};

use crate::cells::without_cells;
use crate::dropping::discard;
use crate::fault::LayoutFault;
use crate::layout::{Layout, LineEnd};
use crate::learn::style_of;
use crate::matching::is_text_of;
use crate::merge::{Old, merge};
use crate::parts::{between, whole};
use crate::print::{Spot, print};
use crate::read::read_tree;
use crate::same::is_same;
use crate::scan::nests_too_deep;
use crate::style::Style;
use serde_json::Value;
use std::alloc::{AllocError, Global};

// The tree that the bytes have.
fn read(alloc: Global, bytes: &[u8]) -> Result<Value, LayoutFault>
    ensures { Reads bytes.now result }
{
    match read_tree(alloc, bytes)? {
        Some(value) => Ok(value),
        None => if nests_too_deep(bytes) {
            Err(LayoutFault::TooDeep)
        } else {
            Err(LayoutFault::NotJson)
        },
    }
}

// Whether a text has this tree; `false` says nothing.
fn has_tree(alloc: Global, text: &[u8], value: &Value) -> Result<bool, AllocError>
    ensures { IfOk result (λ same. IsTrue same → IsTreeOf text.now (data_of value.now)) }
{
    if is_text_of(alloc, text, value)? {
        return Ok(true);
    }
    // Its members may not stand by their names.
    match read_tree(alloc, text)? {
        Some(again) => {
            let same = is_same(&again, value);
            discard(again);
            Ok(same)
        }
        None => Ok(false),
    }
}

/// The text of a tree.
#[derive(Drop)]
pub struct LaidText {
    /// The text.
    pub text: Vec<u8>,
    /// Whether a text in the layout that was asked for had another tree, so that this one is in Tiled's, or compact.
    pub fell_back: bool,
}

// The text of a tree in a layout.
//
// It is printed, read again and compared. If it should have another tree, the compact text is given.
fn laid(alloc: Global, value: &Value, layout: Layout) -> Result<LaidText, AllocError>
    requires { depth (data_of value.now) ≤ max_depth }
    ensures { IfOk result (λ laid. IsTreeOf laid.text.items (data_of value.now)) }
{
    if layout != Layout::Compact {
        let style = Style::of(layout);
        let mut text = Vec::new(alloc);
        print(alloc, &mut text, &style, Spot::outermost(), value)?;
        if has_tree(alloc, &text, value)? {
            return Ok(LaidText {
                text,
                fell_back: false,
            });
        }
    }
    let text = value.to_vec(alloc)?;
    Ok(LaidText {
        text,
        fell_back: layout != Layout::Compact,
    })
}

/// A text in a layout: one with the same tree.
pub fn lay_out(alloc: Global, text: &[u8], layout: Layout) -> Result<Vec<u8>, LayoutFault>
    ensures tree { LaysOut text.now result }
{
    let value = read(alloc, text)?;
    let laid = laid(alloc, &value, layout)?;
    Ok(laid.text)
}

// A tree printed with the bytes of a source, and with what stands around those.
fn merged(alloc: Global, value: &Value, old: &Value, source: &[u8]) -> Result<Vec<u8>, AllocError> {
    let style = style_of(source);
    let all = whole(source);
    // A text that grows leaves the memory behind that it has outgrown. Most edits add little.
    let mut text = Vec::with_capacity(alloc, source.len().saturating_add(source.len() / 16))?;
    text.extend_from_slice(between(source, 0, all.start))?;
    let old = Old {
        value: old,
        text: between(source, all.start, all.end),
    };
    merge(alloc, &mut text, &style, Spot::outermost(), value, old)?;
    text.extend_from_slice(between(source, all.end, source.len()))?;
    Ok(text)
}

/// The text of a tree, laid out as a source is: the source itself if that has this tree.
///
/// Each value that the source has, too, keeps its bytes, with the space around it. What is new is laid out as its neighbours are,
/// or in Tiled's layout if the source has no tree.
pub fn value_laid_out_like(
    alloc: Global,
    value: &Value,
    source: &[u8],
    tree: Option<Value>,
) -> Result<LaidText, AllocError>
    requires within { depth (data_of value.now) ≤ max_depth }
    requires source { IfSome tree (λ t. IsTreeOf source.now (data_of t)) }
    ensures tree { IfOk result (λ laid. IsTreeOf laid.text.items (data_of value.now)) }
    ensures kept { IfOk result (λ laid. option_map data_of tree ≡ Some (data_of value.now) → laid.text.items ≡ source.now) }
{
    let Some(old) = tree else {
        return laid(alloc, value, Layout::Tiled(LineEnd::Lf));
    };
    if is_same(value, &old) {
        discard(old);
        let kept = source.to_vec(alloc)?;
        return Ok(LaidText {
            text: kept,
            fell_back: false,
        });
    }
    let old = without_cells(alloc, old)?;
    let merged = merged(alloc, value, &old, source)?;
    discard(old);
    if has_tree(alloc, &merged, value)? {
        return Ok(LaidText {
            text: merged,
            fell_back: false,
        });
    }
    drop(merged);
    let laid = laid(alloc, value, Layout::Tiled(LineEnd::Lf))?;
    Ok(LaidText {
        text: laid.text,
        fell_back: true,
    })
}

/// A text laid out as a source is: one with the same tree, and the source itself if that has this tree. As `value_laid_out_like` does.
pub fn laid_out_like(alloc: Global, text: &[u8], source: &[u8]) -> Result<Vec<u8>, LayoutFault>
    ensures tree { LaysOut text.now result }
    ensures kept { Keeps text.now source.now result }
{
    let value = read(alloc, text)?;
    let tree = read_tree(alloc, source)?;
    let laid = value_laid_out_like(alloc, &value, source, tree)?;
    Ok(laid.text)
}
