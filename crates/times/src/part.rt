//! The parts of the engine that are timed.

use crate::asking::asked_line;
use crate::join_run::run_line;
use crate::known::known_line;
use crate::search::search_line;
use crate::stop::Stop;
use std::alloc::Global;

/// A part of the engine.
#[derive(Clone, Copy, Debug)]
pub(crate) enum Part {
    /// The search for the least code of a query.
    Plan,
    /// The run of one code over two tables.
    Run,
    /// Texts of tables that are seen whole, or their plans, one after the other.
    Ask,
    /// Texts of a role under a policy, or their plans, one after the other.
    Known,
}

impl Part {
    /// The part of that name, if there is one.
    pub fn named(name: &str) -> Option<Part> {
        match name {
            "plan" => Some(Part::Plan),
            "run" => Some(Part::Run),
            "ask" => Some(Part::Ask),
            "known" => Some(Part::Known),
            _ => None,
        }
    }

    /// Does the work that the words say, and returns a line of its results in numbers.
    pub fn work(self, alloc: Global, words: &[String]) -> Result<String, Stop> {
        match self {
            Part::Plan => search_line(alloc, words),
            Part::Run => run_line(alloc, words),
            Part::Ask => asked_line(alloc, words),
            Part::Known => known_line(alloc, words),
        }
    }
}
