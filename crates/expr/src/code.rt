//! Codes of plans: the order of the entries, how the rows of each are read, and how they are joined.

ghost use Rattle.std.specs.Prelude.{◌≡◌, flat_map};
ghost use Rattle.std.specs.Ordering.{nat_cmp};
ghost use Rattle.std.specs.Cmp.Lexicographic.{slice_cmp};
ghost use Rattle.expr.specs.Codes as spec;
ghost use Rattle.expr.specs.View.{code_of};

use memory::{Heap, Items};
use std::cmp::Ordering;

/// How the rows of an entry are read (Selinger et al. 1979, section 4: access paths). Columns and conjuncts count from 1.
#[derive(Clone, Copy, Debug, PartialEq, Eq)]
pub enum Access {
    /// All rows, one after another.
    Full,
    /// All rows, in the order of the index on a column.
    Index { column: u64 },
    /// By the index on a column, the rows that a conjunct of the planning list allows.
    Range { column: u64, bound: u64 },
}

/// How the rows of an entry are joined to the combinations of those before. Conjuncts count from 1.
#[derive(Clone, Copy, Debug, PartialEq, Eq)]
pub enum Method {
    /// Each row to each combination; the method of the first entry too.
    Nested,
    /// By a hash table, on the equality that a conjunct of the planning list is.
    Hash { conjunct: u64 },
    /// By merging what both sides have in order, on the equality that a conjunct of the planning list is.
    Merge { conjunct: u64 },
}

/// One step of a code: an entry, counted from 1 as it stands in FROM.
#[derive(Clone, Copy, Debug, PartialEq, Eq)]
pub struct CodeStep {
    /// The entry.
    pub entry: u64,
    /// How its rows are read.
    pub access: Access,
    /// How they are joined.
    pub method: Method,
}

/// The code of a plan.
#[derive(Drop)]
pub enum Code<A: Heap> {
    /// No row is read, since a conjunct is never true.
    Empty,
    /// A step for each entry, in the order in which they are joined.
    Steps(Items<CodeStep, A>),
}

impl CodeStep {
    /// The step as numbers: entry, kind of access, column, bound, method and conjunct, 0 where there is none.
    pub fn numbers(self) -> [u64; 6]
        ensures { result ≡ spec.step_numbers self }
    {
        let (access, column, bound) = match self.access {
            Access::Full => (0, 0, 0),
            Access::Index { column } => (1, column, 0),
            Access::Range { column, bound } => (2, column, bound),
        };
        let (method, conjunct) = match self.method {
            Method::Nested => (0, 0),
            Method::Hash { conjunct } => (1, conjunct),
            Method::Merge { conjunct } => (2, conjunct),
        };
        [self.entry, access, column, bound, method, conjunct]
    }
}

// The order of steps by all their numbers, from left to right.
fn cmp_steps(steps: &[CodeStep], others: &[CodeStep]) -> Ordering
    ensures { result ≡ slice_cmp nat_cmp (flat_map spec.step_numbers steps.now) (flat_map spec.step_numbers others.now) }
{
    match (steps.split_first(), others.split_first()) {
        (None, None) => Ordering::Equal,
        (None, Some(_)) => Ordering::Less,
        (Some(_), None) => Ordering::Greater,
        (Some((step, steps)), Some((other, others))) => {
            match step.numbers().cmp(&other.numbers()) {
                Ordering::Equal => cmp_steps(steps, others),
                order => order,
            }
        }
    }
}

/// The order of codes by all the numbers of their steps, from left to right; Empty has none. Of plans of one cost the
/// one whose code is least is taken.
pub fn cmp_codes<A: Heap>(code: &Code<A>, other: &Code<A>) -> Ordering
    ensures { result ≡ spec.code_cmp (code_of code.now) (code_of other.now) }
{
    let none: [CodeStep; 0] = [];
    let steps = match code {
        Code::Empty => &none,
        Code::Steps(steps) => steps.as_slice(),
    };
    let others = match other {
        Code::Empty => &none,
        Code::Steps(steps) => steps.as_slice(),
    };
    cmp_steps(steps, others)
}
