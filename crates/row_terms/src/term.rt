//! Terms, and the entries that they cover.

ghost use Rattle.std.specs.Prelude.{◌≡◌, ◌==◌};
ghost use Rattle.std.specs.List.{list_any};
ghost use Rattle.row_terms.specs.Terms as spec;
ghost use Rattle.row_terms.specs.View.{term_of};

use expr::MovableExpr;
use memory::{Heap, Items};

/// A term of the relational algebra: combinations of rows of entries of FROM (Selinger et al. 1979, section 2). An entry
/// is given by its index.
#[derive(Drop)]
pub enum Term<A: Heap> {
    /// Each row of an entry.
    Raw {
        entry: usize,
    },
    /// The combinations whose row of an entry its guard shows.
    Guarded {
        entry: usize,
        input: Box<Term<A>, A>,
    },
    /// The combinations on which a condition is true.
    Filtered {
        condition: MovableExpr<A>,
        input: Box<Term<A>, A>,
    },
    /// Each combination of the left side with each of the right.
    Joined {
        left: Box<Term<A>, A>,
        right: Box<Term<A>, A>,
    },
    /// Each combination of the left side with those of the right on which a condition is true; where there is none, with the
    /// null rows of the right side's entries.
    LeftJoined {
        on: MovableExpr<A>,
        left: Box<Term<A>, A>,
        right: Box<Term<A>, A>,
    },
    /// No combination, of these entries.
    Empty {
        entries: Items<usize, A>,
    },
}

// True where the entry is among those.
fn is_among(entries: &[usize], entry: usize) -> bool
    ensures { result ≡ list_any (λ i. i == entry) entries.now }
{
    entries.iter().any(|i| *i == entry)
}

/// True where the term's combinations have a row, or the null row, of the entry.
pub fn covers<A: Heap>(term: &Term<A>, entry: usize) -> bool
    ensures { result ≡ spec.covers (term_of term.now) entry }
{
    match term {
        Term::Raw { entry: own } => *own == entry,
        Term::Guarded { input, .. } => covers(input, entry),
        Term::Filtered { input, .. } => covers(input, entry),
        Term::Joined { left, right } => covers(left, entry) || covers(right, entry),
        Term::LeftJoined { left, right, .. } => covers(left, entry) || covers(right, entry),
        Term::Empty { entries } => is_among(entries.as_slice(), entry),
    }
}
