//! Session scripts: the events of their lines, and the texts of replies to events.
//!
//! ```text
//! read_line(alloc, "login alice")?                  // Event::Login
//! read_line(alloc, "ask 0 SELECT id FROM deal")?    // Event::Ask, of session 0
//! read_line(alloc, "load deal deal.csv")?           // the table and the path of a load
//! ```
#![tactic(auto)]

mod events;
mod line;
mod script;
mod texts;
mod words;

pub use line::{ScriptLine, read_line};
pub use script::{Script, read_script, without_end};
pub use session::{Core, Event};
pub use texts::{reply_text, write_reply};
