//! Writing the reply.

ghost use Rattle.std.specs.Prelude.{◌≡◌, ◌≢◌, ℕ, List};
ghost use Rattle.output.specs.Sent.{IsSent};
ghost use Rattle.value.specs.Names.{Name};
ghost use Rattle.catalog.specs.Catalog.{Catalog};
ghost use Rattle.replies.specs.Reply.{no_memory, reply_status};
ghost use Rattle.replies.specs.ReplyText.{reply_text};
ghost use Rattle.replies.specs.View.{reply_of};
ghost use Rattle.store.specs.Database.{Rows, rows_of};
ghost use Rattle.engine.specs.Answer.{reply_to};
ghost use Rattle.engine.specs.Serving.{IsWhole};
ghost use Rattle.engine.specs.Hidden.{SeesSame};
ghost use Rattle.engine.specs.Readable.{ReadsSame};

use crate::asking::ask;
use memory::Heap;
use output::Out;
use replies::{Reply, write_reply};
use store::Store;

/// Writes the text of a reply, and gives its status, as `serve`: 7 where memory runs out before the first byte is written, 8 where the
/// writer fails. The writer is not flushed.
pub fn write_answer<A: Heap, W: Out>(alloc: A, reply: &Reply<A>, out: &mut W) -> u8
    // The whole text of the reply, and its status; or memory ran out, or the writer failed.
    ensures sent { let due = reply_of reply.now in
        IsSent (W.taken out.old) (W.taken out.new) (W.failures out.old) (W.failures out.new) result (reply_status due) (reply_text due) (reply_text no_memory) }
{
    write_reply(alloc, reply, out)
}

/// Writes the reply to a role's text, and gives its status: 0 rows, 3 a refused text, 4 a denial, 5 a fault, 6 an unknown
/// role, 7 out of memory, 8 a writer that failed. Nothing is written before the reply is whole, and the writer is not flushed.
/// `serve(alloc, &store, "root", "SELECT nosuch FROM t", &mut out)` writes `refused 42703 at 7` and gives 3.
pub fn serve<A: Heap, W: Out>(alloc: A, store: &Store<A>, role: &str, text: &str, out: &mut W) -> u8
    // The whole reply, and its status; or memory ran out, or the writer failed.
    ensures sent { let due = reply_to store.now.catalog (rows_of store.now) role.now text.now in
        IsSent (W.taken out.old) (W.taken out.new) (W.failures out.old) (W.failures out.new) result (reply_status due) (reply_text due) (reply_text no_memory) }
    // Rows that the role does not see make no difference.
    ensures hidden { (other : Rows) → SeesSame store.now.catalog role.now text.now (rows_of store.now) other → result ≢ 7 → result ≢ 8 →
        IsWhole (W.taken out.old) (W.taken out.new) result (reply_to store.now.catalog other role.now text.now) }
    // Nor do columns that are not granted to it.
    ensures ungranted { (other : Rows) → ReadsSame store.now.catalog role.now (rows_of store.now) other → result ≢ 7 → result ≢ 8 →
        IsWhole (W.taken out.old) (W.taken out.new) result (reply_to store.now.catalog other role.now text.now) }
{
    let reply = ask(alloc, store, role, text);
    write_answer(alloc, &reply, out)
}

/// Rows that a role does not see make no difference to its replies: two contents whose rows that it sees, entry by entry and
/// restricted to the columns that the text names, are the same bags give the same reply, rows or fault, and so equal bytes
/// and statuses.
#[tactic(auto, using(crate::proofs::HiddenRows::same_reply))]
pub fn law_hidden_rows()
    ensures { (cat : Catalog) (role : Name) (text : List ℕ) (one other : Rows) → SeesSame cat role text one other → reply_to cat one role text ≡ reply_to cat other role text }
{}

/// No reply reads a column that the role may not read: two contents that are the same bags, for each table on a part of
/// which the role has SELECT, in the rows that it sees and the columns that are granted to it, give the same reply to every
/// text. So its own rows, in its granted columns, and how many there are, are all that a role ever learns.
#[tactic(auto, using(crate::proofs::Readable::same_to_readers))]
pub fn law_ungranted_columns()
    ensures { (cat : Catalog) (role : Name) (text : List ℕ) (one other : Rows) → ReadsSame cat role one other → reply_to cat one role text ≡ reply_to cat other role text }
{}
