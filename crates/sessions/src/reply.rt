//! Replies to events.

ghost use Rattle.std.specs.Prelude.{◌≡◌};
ghost use Rattle.analysis.specs.Analysis.{refused_text};
ghost use Rattle.sessions.specs.Reply.{Engine as engine_reply, refused_by};
ghost use Rattle.sessions.specs.View.{reply_of};

use memory::{Heap, Text};
use syntax::ParseError;
use tables::LoadError;
use value::Refusal;

/// The reply to an event.
#[derive(Drop)]
pub enum Reply<A: Heap> {
    /// A refusal, a denial, a fault or rows.
    Engine {
        /// The reply to a text.
        reply: replies::Reply<A>,
    },
    /// The event is done.
    Done,
    /// A session was opened.
    Session {
        /// Its number.
        number: u64,
    },
    /// The rows of a load are refused.
    Data {
        /// The table.
        table: Text<A>,
        /// The column, empty for an error of no column.
        column: Text<A>,
        /// The first error of the rows.
        error: LoadError,
    },
}

/// A refusal by a code alone.
pub fn refused_by<A: Heap>(code: Refusal) -> Reply<A>
    ensures { reply_of result ≡ refused_by code }
{
    Reply::Engine {
        reply: replies::Reply::Refused { code, offset: None },
    }
}

// The refusal of a text that is none of the grammar.
pub(crate) fn refused_text<A: Heap>(error: ParseError) -> Reply<A>
    ensures { reply_of result ≡ engine_reply (refused_text error) }
{
    match error {
        ParseError::Syntax { offset } => Reply::Engine {
            reply: replies::Reply::Refused {
                code: Refusal::SyntaxError,
                offset: Some(offset),
            },
        },
        ParseError::Limit => refused_by(Refusal::ProgramLimitExceeded),
    }
}
