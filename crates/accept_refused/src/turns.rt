//! Runs of which each request for memory is refused in turn.

use fixtures::sales;
use metered::Metered;
use std::alloc::Global;
use std::process::Abort;

/// The outcome of a run of which a request for memory was to be refused.
#[derive(Clone, Copy, PartialEq, Eq)]
pub enum Ended {
    /// There are fewer requests.
    Whole,
    /// The run does without the request.
    Without,
    /// Memory ran out.
    Refused,
}

/// A run that takes memory.
pub trait Run {
    /// The outcome with an allocator that refuses its nth request. A result that is neither the whole one nor that memory ran out
    /// stops the test.
    fn ended(&self, rt: &(impl Abort + AllocGlobal), heap: &Metered<Global>, nth: u64) -> Ended;
}

/// The outcome of a run up to here, which ran out of memory or has its whole result. Memory runs out only where a request was refused.
pub fn ended_here(
    rt: &impl Abort,
    heap: &Metered<Global>,
    nth: u64,
    is_refused: bool,
    name: &str,
) -> Ended {
    let is_fewer = heap.requests(nth) < nth;
    assert!(rt; !(is_fewer && is_refused), "{name}: at {nth}");
    if is_refused {
        Ended::Refused
    } else if is_fewer {
        Ended::Whole
    } else {
        Ended::Without
    }
}

fn ended_at<R: Run>(rt: &(impl Abort + AllocGlobal), run: &R, nth: u64) -> Ended {
    let heap = Metered::refusing(rt.alloc(), nth);
    run.ended(rt, &heap, nth)
}

/// Refuses each request of a run after the first ones in turn, up to a run that makes fewer. It gives the number of those where memory
/// ran out, which are most of them.
pub fn refuse_in_turn<R: Run>(
    rt: &(impl Abort + AllocGlobal),
    run: &R,
    first: u64,
    name: &str,
) -> u64 {
    let mut refused = 0u64;
    let mut without = 0u64;
    let mut is_whole = false;
    for n in 1..100_000u64 {
        match ended_at(rt, run, first.saturating_add(n)) {
            Ended::Whole => {
                is_whole = true;
                break;
            }
            Ended::Without => without = without.saturating_add(1),
            Ended::Refused => refused = refused.saturating_add(1),
        }
    }
    assert!(rt;
        is_whole && without <= refused,
        "{name}: {without} and {refused}"
    );
    refused
}

/// The number of requests of the store of `sales`.
pub fn requests_of_sales(rt: &(impl Abort + AllocGlobal)) -> u64 {
    let counting = Metered::counting(rt.alloc());
    drop(sales(&counting).expect(rt, "no store"));
    counting.requests(0)
}
