// Rectangles for the cells that are not 0 and that no rectangle covers.
ghost use Rattle.std.specs.Prelude.{◌≡◌, ◌++◌, ◌<◌, ◌^◌, IfOk, OnOk};
ghost use Rattle.infinite_maps.specs.Rectangles.{area, bounds};
ghost use Rattle.infinite_maps.specs.Growth.{edge, block_count, block_at, is_new, new_cells, pieces_by, pieces, row_pieces, rows_pieces, grown};

use crate::cells::cell_at;
use crate::cover::{is_covered, is_uncovered};
use crate::plane::Plane;
use crate::rectangle::{Rectangle, bounds};
use std::alloc::{AllocError, Global};

#[tactic(auto, using(crate::proofs::Sizes::products))]
fn edge(side: u16, lost: u16, limit: u16, k: u32) -> u32
    ensures { result ≡ edge side lost limit k }
{
    let end = (k as u64 * side as u64).saturating_sub(lost as u64);
    end.min(limit as u64) as u32
}

#[tactic(auto, using(crate::proofs::Sizes::counts))]
fn block_count(side: u16, lost: u16, limit: u16) -> u32
    ensures value { result ≡ block_count side lost limit }
    ensures small { result < 2 ^ 31 }
{
    (limit as u32 + lost as u32) / side.max(1) as u32 + 1
}

fn block_at(plane: Plane, j: u32, i: u32) -> Rectangle
    requires i { i < 2 ^ 31 }
    requires j { j < 2 ^ 31 }
    ensures { result ≡ block_at plane j i }
{
    Rectangle {
        left: edge(plane.across, plane.lost_x, plane.columns, i),
        top: edge(plane.down, plane.lost_y, plane.rows, j),
        right: edge(plane.across, plane.lost_x, plane.columns, i + 1),
        bottom: edge(plane.down, plane.lost_y, plane.rows, j + 1),
    }
}

fn is_new(cells: &[u64], cover: &[bool], at: usize) -> bool
    ensures { result ≡ is_new cells.now cover.now at }
{
    0 < cell_at(cells, at) && !is_covered(cover, at)
}

fn new_cells(
    alloc: Global,
    columns: u16,
    cells: &[u64],
    cover: &[bool],
    rectangle: Rectangle,
) -> Result<Vec<Rectangle>, AllocError>
    ensures { IfOk result (λ found. found.items
        ≡ new_cells columns cells.now cover.now rectangle (area rectangle)) }
{
    let mut found = Vec::new(alloc);
    for k in 0..rectangle.area() {
        if is_new(cells, cover, rectangle.place(columns, k)) {
            found.push(rectangle.cell(k))?;
        }
    }
    Ok(found)
}

fn add_by(
    found: &mut Vec<Rectangle>,
    columns: u16,
    cover: &[bool],
    rectangle: Rectangle,
    news: &[Rectangle],
) -> Result<(), AllocError>
    ensures { OnOk result (found.new.items
        ≡ found.old.items ++ pieces_by columns cover.now rectangle news.now (bounds news.now)) }
{
    match bounds(news) {
        Some(around) => {
            if is_uncovered(columns, cover, rectangle) {
                found.push(rectangle)?;
            } else if is_uncovered(columns, cover, around) {
                found.push(around)?;
            } else {
                found.extend_from_slice(news)?;
            }
            Ok(())
        }
        None => Ok(()),
    }
}

#[tactic(auto, unfolding(crate::specs::Growth::pieces))]
fn add_pieces(
    alloc: Global,
    found: &mut Vec<Rectangle>,
    columns: u16,
    cells: &[u64],
    cover: &[bool],
    rectangle: Rectangle,
) -> Result<(), AllocError>
    ensures { OnOk result (found.new.items
        ≡ found.old.items ++ pieces columns cells.now cover.now rectangle) }
{
    let news = new_cells(alloc, columns, cells, cover, rectangle)?;
    add_by(found, columns, cover, rectangle, &news)
}

fn add_row(
    alloc: Global,
    found: &mut Vec<Rectangle>,
    plane: Plane,
    cells: &[u64],
    cover: &[bool],
    j: u32,
) -> Result<(), AllocError>
    requires { j < 2 ^ 31 }
    ensures { OnOk result (found.new.items
        ≡ found.old.items ++ row_pieces plane cells.now cover.now j (block_count plane.across plane.lost_x plane.columns)) }
{
    for i in 0..block_count(plane.across, plane.lost_x, plane.columns) {
        add_pieces(
            alloc,
            found,
            plane.columns,
            cells,
            cover,
            block_at(plane, j, i),
        )?;
    }
    Ok(())
}

/// The new rectangles.
#[tactic(auto, unfolding(crate::specs::Growth::grown))]
pub fn grown(
    alloc: Global,
    plane: Plane,
    cells: &[u64],
    cover: &[bool],
) -> Result<Vec<Rectangle>, AllocError>
    ensures { IfOk result (λ found. found.items ≡ grown plane cells.now cover.now) }
{
    let mut found = Vec::new(alloc);
    for j in 0..block_count(plane.down, plane.lost_y, plane.rows) {
        add_row(alloc, &mut found, plane, cells, cover, j)?;
    }
    Ok(found)
}
