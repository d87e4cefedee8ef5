//! The shapes of queries.

ghost use Rattle.std.specs.Prelude.{◌<◌};

/// The entries of a query that a condition joins: each with the next one, the first one with each other, or each two.
#[derive(Clone, Copy, Debug, PartialEq, Eq)]
pub(crate) enum Shape {
    /// Each with the next one.
    Chain,
    /// The first one with each other.
    Star,
    /// Each two.
    Clique,
}

impl Shape {
    /// The shape of that name, if there is one.
    pub fn named(name: &str) -> Option<Shape> {
        match name {
            "chain" => Some(Shape::Chain),
            "star" => Some(Shape::Star),
            "clique" => Some(Shape::Clique),
            _ => None,
        }
    }

    /// True where a condition joins two entries, of which the first comes first in FROM.
    pub fn joins(self, one: usize, other: usize) -> bool
        requires { one < other }
    {
        match self {
            Shape::Chain => one + 1 == other,
            Shape::Star => one == 0,
            Shape::Clique => true,
        }
    }
}
