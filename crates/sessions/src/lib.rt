//! Sessions over a store: who is logged in, prepared texts, cursors, and the effect of each event on them. Nothing here
//! asks the engine: a reply to a text is handed in.
//!
//! ```text
//! let mut sessions = Sessions::new(alloc, store);
//! sessions.login(Text::new(alloc, "root")?)?;
//! let (role, text) = sessions.ask_text(0, "SELECT id FROM t")?;
//! ```
#![tactic(auto)]

mod changing;
mod copies;
mod cursor;
mod entries;
mod loading;
mod parsing;
mod reply;
mod session;
mod sessions;

pub use reply::{Reply, refused_by};
pub use session::{MOST_CURSORS, MOST_PREPARED};
pub use sessions::{MOST_SESSIONS, Sessions};
