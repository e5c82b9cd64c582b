//! What is wrong with a map's text.

ghost use Rattle.std.specs.Prelude.{◌≤◌, length};

use asp_base::Refusal;

/// What is wrong with a map's text.
#[derive(Clone, Copy, Debug, PartialEq, Eq)]
pub enum MapKind {
    /// The first line is no header.
    BadHeader,
    /// A line is none of a map, or stands behind its end.
    BadLine,
    /// A line is of an earlier kind, an atom does not rise, or a priority does not fall.
    WrongOrder,
    /// The text has no end.
    NoEnd,
}

impl MapKind {
    /// The name of the fault, at most 10 bytes.
    pub fn name(self) -> &'static str
        ensures { length result.now ≤ 10 }
    {
        match self {
            MapKind::BadHeader => "BadHeader",
            MapKind::BadLine => "BadLine",
            MapKind::WrongOrder => "WrongOrder",
            MapKind::NoEnd => "NoEnd",
        }
    }
}

/// The first fault of a map's text with the number of its line, from 1, or want of memory.
pub type MapRefusal = Refusal<MapKind>;
