//! The arguments of a query, and its reply.

ghost use Rattle.output.specs.Sent.{IsSent};
ghost use Rattle.replies.specs.Reply.{no_memory, reply_status};
ghost use Rattle.replies.specs.ReplyText.{reply_text};
ghost use Rattle.engine.specs.Database.{rows_of};
ghost use Rattle.engine.specs.Answer.{reply_to};

use engine::{Store, serve};
use memory::Heap;
use output::Out;

/// The arguments of `rowplan query`.
#[derive(Clone, Copy, Debug)]
pub struct Arguments<'a> {
    /// The path of the schema text.
    pub schema: &'a str,
    /// The folder of the files of the tables.
    pub dir: &'a str,
    /// The role that asks.
    pub role: &'a str,
    /// The text of the query.
    pub text: &'a str,
}

/// Writes the reply to the query of the arguments, asked by their role, and returns its status, as `engine::serve` does.
pub fn reply<A: Heap, W: Out>(
    alloc: A,
    store: &Store<A>,
    arguments: &Arguments<'_>,
    out: &mut W,
) -> u8
    // The whole reply, and its status; or memory ran out, or the writer failed.
    ensures sent { let due = reply_to store.now.catalog (rows_of store.now) arguments.now.role.now arguments.now.text.now in
        IsSent (W.taken out.old) (W.taken out.new) (W.failures out.old) (W.failures out.new) result (reply_status due) (reply_text due) (reply_text no_memory) }
{
    serve(alloc, store, arguments.role, arguments.text, out)
}
