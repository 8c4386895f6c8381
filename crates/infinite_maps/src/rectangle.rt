// Rectangles of cells.
ghost use Rattle.std.specs.Prelude.{◌≡◌, ◌<◌};
ghost use Rattle.infinite_maps.specs.Rectangles.{width, height, area, place, cell_of, joined, around, bounds};

/// A rectangle of cells, counted from the corner of a map; `right` and `bottom` are past its last column and row.
#[derive(Clone, Copy)]
pub struct Rectangle {
    pub left: u32,
    pub top: u32,
    pub right: u32,
    pub bottom: u32,
}

impl Rectangle {
    pub fn width(self) -> u32
        ensures { result ≡ width self }
    {
        self.right.saturating_sub(self.left)
    }

    pub fn height(self) -> u32
        ensures { result ≡ height self }
    {
        self.bottom.saturating_sub(self.top)
    }

    /// The number of its cells.
    #[tactic(auto, using(crate::proofs::Sizes::areas))]
    pub fn area(self) -> usize
        ensures { result ≡ area self }
    {
        self.width() as usize * self.height() as usize
    }

    /// Where its `k`-th cell stands among those of a layer.
    #[tactic(auto, using(crate::proofs::Sizes::places), unfolding(crate::specs::Rectangles::place))]
    pub fn place(self, columns: u16, k: usize) -> usize
        requires { k < area self }
        ensures { result ≡ place columns self k }
    {
        let width = self.width().max(1) as usize;
        let row = self.top as usize + k / width;
        let column = self.left as usize + k % width;
        row * columns as usize + column
    }

    /// Its `k`-th cell.
    #[tactic(auto, using(crate::proofs::Sizes::places))]
    pub fn cell(self, k: usize) -> Rectangle
        requires { k < area self }
        ensures { result ≡ cell_of self k }
    {
        let width = self.width().max(1) as usize;
        let left = self.left + (k % width) as u32;
        let top = self.top + (k / width) as u32;
        Rectangle {
            left,
            top,
            right: left + 1,
            bottom: top + 1,
        }
    }

    /// The smallest rectangle around both.
    pub fn joined(self, other: Rectangle) -> Rectangle
        ensures { result ≡ joined self other }
    {
        Rectangle {
            left: self.left.min(other.left),
            top: self.top.min(other.top),
            right: self.right.max(other.right),
            bottom: self.bottom.max(other.bottom),
        }
    }
}

fn around(found: Option<Rectangle>, rectangle: Rectangle) -> Option<Rectangle>
    ensures { result ≡ around found rectangle }
{
    match found {
        Some(found) => Some(found.joined(rectangle)),
        None => Some(rectangle),
    }
}

/// The smallest rectangle around all.
pub fn bounds(rectangles: &[Rectangle]) -> Option<Rectangle>
    ensures { result ≡ bounds rectangles.now }
{
    let mut found = None;
    for rectangle in rectangles {
        found = around(found, *rectangle);
    }
    found
}
