//! Sessions of several roles over one store, one event after the other, with plans that they share.
//!
//! ```text
//! let mut core = Core::new(alloc, store)?;
//! let role = Text::new(alloc, "alice")?;
//! core.step(Event::Login { role });                       // Reply::Session { number: 0 }
//! let text = Text::new(alloc, "SELECT id FROM deal")?;
//! core.step(Event::Ask { session: 0, text });             // Reply::Engine, with the rows that alice sees
//! core.hits();                                            // 0; asked once more, the text is not planned again: 1
//! ```
#![tactic(auto)]

mod asking;
mod event;
mod forgetting;
mod machine;

pub use event::Event;
pub use machine::{Core, law_runs_are_the_machines};
pub use sessions::Reply;
