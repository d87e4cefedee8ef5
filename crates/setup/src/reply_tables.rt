//! The reply to the arguments of a query, its rows as a table.

ghost use Rattle.output.specs.Sent.{IsSent};
ghost use Rattle.replies.specs.Reply.{no_memory, reply_status};
ghost use Rattle.replies.specs.ReplyText.{reply_text};
ghost use Rattle.tabular.specs.ReplyTables.{reply_table};
ghost use Rattle.engine.specs.Database.{rows_of};
ghost use Rattle.engine.specs.Answer.{reply_to};

use crate::arguments::Arguments;
use engine::{Store, ask};
use memory::Heap;
use output::Out;
use tabular::write_table;

/// Writes the reply to the query of the arguments, asked by their role, its rows as a table, and returns its status: 0
/// rows, 3 a refused text, 4 a denial, 5 a fault, 6 an unknown role, 7 out of memory, 8 a writer that failed.
pub fn reply_table<A: Heap, W: Out>(
    alloc: A,
    store: &Store<A>,
    arguments: &Arguments<'_>,
    out: &mut W,
) -> u8
    // The whole reply, and its status; or memory ran out, or the writer failed.
    ensures sent { let due = reply_to store.now.catalog (rows_of store.now) arguments.now.role.now arguments.now.text.now in
        IsSent (W.taken out.old) (W.taken out.new) (W.failures out.old) (W.failures out.new) result (reply_status due) (reply_table due) (reply_text no_memory) }
{
    let reply = ask(alloc, store, arguments.role, arguments.text);
    write_table(alloc, &reply, out)
}
