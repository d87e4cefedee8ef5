//! How much a trail may ask for.

ghost use Rattle.std.specs.Prelude.{◌≡◌, ◌-◌};
ghost use Rattle.row_terms.specs.View.{term_of};
ghost use Rattle.trailcheck.specs.Limits as spec;

use memory::Heap;
use row_terms::Term;

/// The most steps of a trail.
pub(crate) const MOST_STEPS: u64 = 16384;

const MOST_NODES: u64 = 4096;

// So many less the nodes of the term, or 0.
fn less_nodes<A: Heap>(number: u64, term: &Term<A>) -> u64
    ensures { result ≡ number - spec.node_count (term_of term.now) }
{
    match term {
        Term::Raw { .. } => number.saturating_sub(1),
        Term::Guarded { input, .. } => less_nodes(number, input).saturating_sub(1),
        Term::Filtered { input, .. } => less_nodes(number, input).saturating_sub(1),
        Term::Joined { left, right } => {
            let rest = less_nodes(number, left);
            less_nodes(rest, right).saturating_sub(1)
        }
        Term::LeftJoined { left, right, .. } => {
            let rest = less_nodes(number, left);
            less_nodes(rest, right).saturating_sub(1)
        }
        Term::Empty { .. } => number.saturating_sub(1),
    }
}

/// True where the term has no more nodes than a trail may make.
pub(crate) fn is_within_nodes<A: Heap>(term: &Term<A>) -> bool
    ensures { result ≡ spec.is_within_nodes (term_of term.now) }
{
    less_nodes(MOST_NODES + 1, term) != 0
}
