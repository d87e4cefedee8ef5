//! Paths to the nodes of a term.

/// One step of a path down a term.
#[derive(Clone, Copy, Debug, PartialEq, Eq)]
pub enum Branch {
    /// To the input of a guard or a filter, or to the left side of a join or a left join.
    First,
    /// To the right side of a join or a left join.
    Second,
}
