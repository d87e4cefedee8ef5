//! The joins of the two tables.

use expr::{Access, Method};

/// How the two tables are joined.
#[derive(Clone, Copy, Debug, PartialEq, Eq)]
pub(crate) enum Join {
    /// Not at all.
    None,
    /// By a hash table of the rows of b.
    Hash,
    /// By a merge, which sorts the rows of both.
    Merge,
    /// By a merge of the rows of both as indexes have them.
    MergeIndexed,
    /// By nested loops.
    Nested,
}

impl Join {
    /// The join of that name, if there is one.
    pub fn named(name: &str) -> Option<Join> {
        match name {
            "none" => Some(Join::None),
            "hash" => Some(Join::Hash),
            "merge" => Some(Join::Merge),
            "merge-indexed" => Some(Join::MergeIndexed),
            "nested" => Some(Join::Nested),
            _ => None,
        }
    }

    /// True where the ids of both tables have an index.
    pub fn is_indexed(self) -> bool {
        self == Join::MergeIndexed
    }

    /// How the rows of both are read.
    pub fn access(self) -> Access {
        if self.is_indexed() {
            Access::Index { column: 1 }
        } else {
            Access::Full
        }
    }

    /// How those of b are joined to those of a; none where nothing is joined.
    pub fn method(self) -> Option<Method> {
        match self {
            Join::None => None,
            Join::Hash => Some(Method::Hash { conjunct: 1 }),
            Join::Merge | Join::MergeIndexed => Some(Method::Merge { conjunct: 1 }),
            Join::Nested => Some(Method::Nested),
        }
    }
}
