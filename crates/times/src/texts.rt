//! Texts that are asked one after the other, while what is known of the rows that the role sees is kept.

use crate::asked_store::query;
use engine::Store;
use fixtures::Known;
use memory::Text;
use replies::{reply_status, reply_text};
use session::{Core, Event, Reply};
use std::alloc::{AllocError, Global};

/// The rows of the texts in a session, or what explains them.
#[derive(Clone, Copy, Debug)]
pub(crate) enum Wanted {
    /// Their rows.
    Rows,
    /// What explains them.
    Plan,
}

/// A query with a number in it.
#[derive(Clone, Copy, Debug)]
pub(crate) enum Query {
    /// Of table t the row with the number as its key.
    Key,
    /// Of so many tables t1, t2 and so on their query, with the number in the name of its column.
    Tables(u64),
}

/// The texts of a query with each number below a count, so that no text is planned before it is asked.
#[derive(Clone, Copy, Debug)]
pub(crate) struct Texts {
    /// The role that asks them.
    pub role: &'static str,
    /// The query.
    pub query: Query,
    /// How many there are.
    pub count: u64,
}

impl Wanted {
    /// The one of that name, if there is one.
    pub(crate) fn named(word: &str) -> Option<Wanted> {
        match word {
            "rows" => Some(Wanted::Rows),
            "plan" => Some(Wanted::Plan),
            _ => None,
        }
    }
}

// The text with that number.
fn text(alloc: Global, texts: Texts, number: u64) -> Result<String, AllocError> {
    match texts.query {
        Query::Key => format!(in alloc; "SELECT val FROM t WHERE id = {number}"),
        Query::Tables(tables) => query(alloc, tables, number),
    }
}

// What explains each: the status of the last, and the length of what was written.
fn explained(
    alloc: Global,
    store: &Store<Global>,
    texts: Texts,
) -> Result<(u8, usize), AllocError> {
    let mut known = Known::new(alloc, store);
    let mut last = (0, 0);
    for number in 0..texts.count {
        let text = text(alloc, texts, number)?;
        let (status, said) = known.explained(alloc, texts.role, text.as_str());
        last = (status, said.inner.len());
    }
    Ok(last)
}

// The status of a reply, and the length of its text.
fn written(alloc: Global, reply: &Reply<Global>) -> Result<(u8, usize), AllocError> {
    match reply {
        Reply::Engine { reply } => Ok((reply_status(reply), reply_text(alloc, reply)?.len())),
        _ => Ok((0, 0)),
    }
}

// The reply to each in a session: the status of the last, and the length of its text.
fn answered(alloc: Global, store: Store<Global>, texts: Texts) -> Result<(u8, usize), AllocError> {
    let Ok(mut core) = Core::new(alloc, store) else {
        return Err(AllocError);
    };
    let role = Text::new(alloc, texts.role)?;
    drop(core.step(Event::Login { role }));
    let mut last = (0, 0);
    for number in 0..texts.count {
        let text = Text::from(text(alloc, texts, number)?);
        let reply = core.step(Event::Ask { session: 0, text });
        last = written(alloc, &reply)?;
    }
    Ok(last)
}

/// Asks the texts of a store, and returns the status of the last reply with its length.
pub(crate) fn asked(
    alloc: Global,
    store: Store<Global>,
    wanted: Wanted,
    texts: Texts,
) -> Result<String, AllocError> {
    let (status, length) = match wanted {
        Wanted::Rows => answered(alloc, store, texts)?,
        Wanted::Plan => explained(alloc, &store, texts)?,
    };
    format!(in alloc; "{status} {length}")
}
