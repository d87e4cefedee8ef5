//! Replies.

ghost use Rattle.replies.specs.ReplyText.{NullFieldIsNull};

use answer_rows::AnswerRows;
use memory::{Heap, Items, Text};
use value::{Fault, Refusal};

/// The reply to a role's text.
#[derive(Drop)]
pub enum Reply<A: Heap> {
    /// The text is refused.
    Refused {
        /// The reason.
        code: Refusal,
        /// The offset in the text, if it is refused at one.
        offset: Option<u32>,
    },
    /// A privilege is missing (42501).
    Denied {
        /// The column that SELECT is missing on, or none if it is missing on every part of the table.
        column: Option<Text<A>>,
        /// The table.
        table: Text<A>,
    },
    /// The evaluation of an expression failed.
    Faulted {
        /// The fault.
        fault: Fault,
    },
    /// The rows of the answer.
    Rows {
        /// The name of each column.
        headings: Items<Text<A>, A>,
        /// The rows in order, each with a value for each heading.
        rows: AnswerRows<A>,
    },
}

/// A field `\N` is null: no value of a type is written so, but a text `\N`, which no table and no literal has.
pub fn law_null_field()
    ensures { NullFieldIsNull }
{}
