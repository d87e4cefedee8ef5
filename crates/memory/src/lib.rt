//! The allocators that every type of this repository takes, texts and lists that a contract sees without their memory,
//! parts written at the end of a text, and one word for running out of memory.
#![tactic(auto)]

mod failure;
mod heap;
mod text;
mod writing;

pub use failure::Failure;
pub use heap::{Heap, boxed};
pub use text::{Items, Text};
pub use writing::{push_number, push_str};
