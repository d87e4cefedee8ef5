//! The tokens of queries and schema statements.
#![tactic(auto)]

mod error;
mod keyword;
mod laws;
mod lexeme;
mod scanner;
mod token;
mod value;

pub use error::TokenError;
pub use laws::law_tokens_stand_in_text;
pub use scanner::{scan, scan_without_offsets, tokenize};
pub use token::{Token, TokenKind};
pub use value::{folded, unquoted};
