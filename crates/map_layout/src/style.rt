//! How values are spelled, and what stands around them.
use crate::layout::{Layout, LineEnd};

/// Where lines begin.
#[derive(Clone, Copy, Debug, PartialEq, Eq)]
pub enum Lines {
    /// At each object and each member, as Tiled has it.
    Tiled,
    /// At each member and each item, further in by a step for each level.
    Indented,
    /// Nowhere.
    None,
}

/// How values are spelled, and what stands around them.
#[derive(Clone, Copy, Debug, PartialEq, Eq)]
pub struct Style {
    pub lines: Lines,
    pub line_end: LineEnd,
    /// What a level is indented by, if lines are: so many of this byte.
    pub indent: u8,
    pub indents: u8,
    /// Whether each row of cells begins a line.
    pub has_rows: bool,
    /// Whether a space stands behind each colon, and behind each comma that ends no line.
    pub is_spaced: bool,
    /// Whether a slash is escaped.
    pub escapes_slashes: bool,
    /// Whether letters beyond ASCII are escaped.
    pub escapes_letters: bool,
    /// Whether a float has at most 15 digits where these tell it, as Tiled writes it.
    pub has_tiled_floats: bool,
}

impl Style {
    /// Tiled's own.
    pub fn tiled(line_end: LineEnd) -> Style {
        Style {
            lines: Lines::Tiled,
            line_end,
            indent: b' ',
            indents: 4,
            has_rows: false,
            is_spaced: false,
            escapes_slashes: true,
            escapes_letters: true,
            has_tiled_floats: true,
        }
    }

    /// That of `serde_json`.
    pub fn compact() -> Style {
        Style {
            lines: Lines::None,
            escapes_slashes: false,
            escapes_letters: false,
            has_tiled_floats: false,
            ..Style::tiled(LineEnd::Lf)
        }
    }

    /// The style of a layout.
    pub fn of(layout: Layout) -> Style {
        match layout {
            Layout::Tiled(line_end) => Style::tiled(line_end),
            Layout::Rows(line_end) => Style {
                has_rows: true,
                ..Style::tiled(line_end)
            },
            Layout::Minimized => Style {
                lines: Lines::None,
                ..Style::tiled(LineEnd::Lf)
            },
            Layout::Compact => Style::compact(),
        }
    }
}
