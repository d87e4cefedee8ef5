//! Replies, their texts and their exit statuses.
#![tactic(auto)]

mod buffered;
mod reply;
mod sending;
mod status;
mod writing;

pub use reply::{Reply, law_null_field};
pub use sending::{reply_text, write_reply, write_text};
pub use status::reply_status;
