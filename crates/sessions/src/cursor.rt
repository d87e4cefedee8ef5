//! Cursors.

ghost use Rattle.std.specs.Prelude.{◌≡◌, IfOk, OnErr, OnOk};
ghost use Rattle.replies.specs.Reply.{Rows as rows_reply};
ghost use Rattle.replies.specs.View.{reply_of};
ghost use Rattle.sessions.specs.State.{advanced, new_cursor, next_rows};

use crate::copies::copy_texts;
use answer_rows::AnswerRows;
use memory::{Heap, Items, Text};
use replies::Reply;
use std::alloc::AllocError;
use std::marker::Model;

/// An answer as it was when the cursor was declared, and how many of its rows were fetched.
#[derive(Drop)]
pub struct Cursor<A: Heap> {
    headings: Items<Text<A>, A>,
    rows: AnswerRows<A>,
    fetched: usize,
}

impl<A: Heap> Model for Cursor<A> {
    ghost use Rattle.std.specs.Prelude.{◌≤◌, length};
    ghost use Rattle.sessions.specs.State as spec;

    ghost Value = { spec.Cursor };

    ghost view = { λ c. record { headings = c.headings; rows = c.rows.rows; fetched = c.fetched } };

    ghost invariant = { λ c. c.fetched ≤ length c.rows.rows };
}

impl<A: Heap> Cursor<A> {
    /// A cursor of which nothing was fetched.
    pub(crate) fn new(headings: Items<Text<A>, A>, rows: AnswerRows<A>) -> Cursor<A>
        ensures { result ≡ new_cursor headings rows.rows }
    {
        Cursor {
            headings,
            rows,
            fetched: 0,
        }
    }

    /// The headings and the next rows, at most so many. Where memory runs out nothing is fetched.
    pub(crate) fn fetch(&mut self, alloc: A, count: u64) -> Result<Reply<A>, AllocError>
        ensures reply { IfOk result (λ reply. reply_of reply ≡ rows_reply self.old.headings (next_rows self.old count)) }
        ensures advanced { OnOk result (self.new ≡ advanced self.old count) }
        ensures unchanged { OnErr result (self.new ≡ self.old) }
    {
        let left = self.rows.len() - self.fetched;
        let count = count.min(left as u64) as usize;
        let rows = self.rows.copy(alloc, self.fetched, count)?;
        let headings = copy_texts(alloc, self.headings.as_slice())?;
        self.fetched += count;
        Ok(Reply::Rows { headings, rows })
    }
}
