//! The limits of a query that its text, its plans and its rows have in common.

/// The most tables of FROM.
pub const MOST_ENTRIES: usize = 12;

/// The most conjuncts of ON and WHERE together, and of a planning list.
pub const MOST_CONJUNCTS: usize = 64;
