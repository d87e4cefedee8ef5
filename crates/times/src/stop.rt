//! The errors that stop the program.

use std::alloc::AllocError;
use std::io;

/// An error that stops the program.
#[derive(Drop)]
pub(crate) enum Stop {
    /// The words of the command line say nothing to do.
    Usage,
    /// No plan may have the code, which is so of none of the joins.
    Code,
    /// Memory ran out.
    OutOfMemory,
    /// The line was not written.
    Output,
}

impl From<AllocError> for Stop {
    fn from(_error: AllocError) -> Stop {
        Stop::OutOfMemory
    }
}

impl From<io::Error> for Stop {
    fn from(_error: io::Error) -> Stop {
        Stop::Output
    }
}

const USAGE: &str = "\
usage: times plan chain|star|clique ENTRIES TIMES INDEXES, with 1 to 12 entries, and 1 to 64 indexes of each table
       times run none|hash|merge|merge-indexed|nested ROWS, with 1 to 1000000 rows
       times ask rows|plan TABLES ROWS TIMES, with 1 to 12 tables of 1 to 1000000 rows, asked up to 1000000 times
       times known rows|plan ROWS TEXTS, with 1 to 1000000 rows, and up to 1000000 texts";

impl Stop {
    /// The exit status.
    pub fn status(&self) -> u8 {
        match self {
            Stop::Usage => 2,
            Stop::Code => 1,
            Stop::OutOfMemory => 7,
            Stop::Output => 8,
        }
    }

    /// The message.
    pub fn message(&self) -> &'static str {
        match self {
            Stop::Usage => USAGE,
            Stop::Code => "no plan may have the code",
            Stop::OutOfMemory => "out of memory",
            Stop::Output => "output: failed",
        }
    }
}
