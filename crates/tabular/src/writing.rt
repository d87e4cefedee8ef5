//! Writing a reply, its rows as a table.

ghost use Rattle.output.specs.Sent.{IsSent};
ghost use Rattle.replies.specs.Reply.{no_memory, reply_status};
ghost use Rattle.replies.specs.ReplyText.{reply_text};
ghost use Rattle.replies.specs.View.{reply_of};
ghost use Rattle.tabular.specs.ReplyTables.{reply_table};

use crate::answer::reply_table;
use memory::Heap;
use output::{Out, send};
use replies::{Reply, reply_status};

/// Writes a reply, its rows as a table, and returns its status; or that of out of memory, with its line. The status is 8
/// where the writer failed.
pub fn write_table<A: Heap, W: Out>(alloc: A, reply: &Reply<A>, out: &mut W) -> u8
    // The whole reply, and its status; or memory ran out, or the writer failed.
    ensures sent { let due = reply_of reply.now in
        IsSent (W.taken out.old) (W.taken out.new) (W.failures out.old) (W.failures out.new) result (reply_status due) (reply_table due) (reply_text no_memory) }
{
    let status = reply_status(reply);
    match reply_table(alloc, reply) {
        Ok(text) => send(out, &text, status),
        Err(_) => send(out, b"refused 53200\n".as_slice(), 7),
    }
}
