//! What is asked and reported of a change.

use answer_rows::AnswerRows;
use memory::Heap;
use replies::Reply;

/// A role and a table, by their names.
#[derive(Clone, Copy)]
pub struct Pair<'a> {
    /// The role.
    pub role: &'a str,
    /// The table.
    pub table: &'a str,
}

/// What roles gain and lose.
#[derive(Drop)]
pub struct Changes<A: Heap> {
    /// A row for each role and table of which the role gains or loses something.
    pub reply: Reply<A>,
    /// True where a role gains something of a table that is not allowed.
    pub opens: bool,
}

/// The rows so far, and whether a role gains something that is not allowed.
#[derive(Drop)]
pub(crate) struct Report<A: Heap> {
    pub rows: AnswerRows<A>,
    pub opens: bool,
}
