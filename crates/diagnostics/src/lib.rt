//! Diagnostics of refusals, denials and faults: the meaning of each code, and the line of the text with a caret below the
//! offset.
#![tactic(auto)]

mod caret;
mod diagnosing;
mod meanings;
mod statements;

pub use diagnosing::hint;
pub use meanings::codes_text;
pub use statements::statement_hint;
