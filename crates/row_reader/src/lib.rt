//! Reading one token ahead: the kinds of tokens, names, literals and operators. Its specs have the grammar of expressions.
#![tactic(auto)]

pub mod comma_list;
pub mod literals;
pub mod names;
pub mod operators;
pub mod reader;
