//! The command line of `rowplan`: the request of its words, and the help.
#![tactic(auto)]

mod arguments;
mod error;
mod program;

pub use arguments::{
    Allowed, ChangesArguments, Format, MatrixArguments, PlanFormat, QueryArguments, QueryText,
    Request, SessionArguments, VerifyArguments, read_words,
};
pub use error::{CommandLineError, unread_words};
