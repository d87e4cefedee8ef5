//! The replies of `rowplan matrix` and `rowplan changes`.

ghost use Rattle.std.specs.Prelude.{◌≡◌, ◌⊎◌, map};
ghost use Rattle.output.specs.Sent.{IsSent};
ghost use Rattle.replies.specs.Reply.{no_memory, reply_status};
ghost use Rattle.replies.specs.ReplyText.{reply_text};
ghost use Rattle.replies.specs.View.{reply_of};
ghost use Rattle.tabular.specs.ReplyTables.{reply_table};
ghost use Rattle.engine.specs.Serving.{IsReply};
ghost use Rattle.access_matrix.specs.Changes.{opens};
ghost use Rattle.access_matrix.specs.Matrix as spec;
ghost use Rattle.access_matrix.specs.Sights.{pair_of};
ghost use Rattle.setup.specs.Rights.{changes_reply, changes_status, status_after};

use access_matrix::{Changes, Pair};
use engine::{Store, write_answer};
use memory::Heap;
use output::Out;
use replies::Reply;
use tabular::write_table;
use value::Refusal;

// The reply where memory ran out.
fn no_memory<A: Heap>() -> Reply<A>
    ensures { reply_of result ≡ no_memory }
{
    Reply::Refused {
        code: Refusal::OutOfMemory,
        offset: None,
    }
}

// Which rows and columns of each table some roles read, or all of them where none is named, and why.
fn matrix<A: Heap>(alloc: A, store: &Store<A>, roles: &[&str]) -> Reply<A>
    ensures { IsReply (reply_of result) (spec.matrix store.now (map (λ r. r.now) roles.now)) }
{
    match access_matrix::matrix(alloc, store, roles) {
        Ok(reply) => reply,
        Err(_) => no_memory(),
    }
}

/// Writes the access matrix of some roles, or of all where none is named, with the rights of `root`, as comma-separated text, and
/// returns its status: 0 rows, 6 an unknown role, 7 out of memory, 8 a writer that failed.
pub fn write_matrix<A: Heap, W: Out>(alloc: A, store: &Store<A>, roles: &[&str], out: &mut W) -> u8
    ensures sent { let due = spec.matrix store.now (map (λ r. r.now) roles.now) in
        IsSent (W.taken out.old) (W.taken out.new) (W.failures out.old) (W.failures out.new) result (reply_status due) (reply_text due) (reply_text no_memory) }
{
    let reply = matrix(alloc, store, roles);
    write_answer(alloc, &reply, out)
}

/// The same as a table in aligned columns.
pub fn write_matrix_table<A: Heap, W: Out>(
    alloc: A,
    store: &Store<A>,
    roles: &[&str],
    out: &mut W,
) -> u8
    ensures sent { let due = spec.matrix store.now (map (λ r. r.now) roles.now) in
        IsSent (W.taken out.old) (W.taken out.new) (W.failures out.old) (W.failures out.new) result (reply_status due) (reply_table due) (reply_text no_memory) }
{
    let reply = matrix(alloc, store, roles);
    write_table(alloc, &reply, out)
}

// What roles gain and lose by a change of the schema, and whether it opens something that is not allowed.
fn changes<A: Heap>(alloc: A, old: &Store<A>, new: &Store<A>, allowed: &[Pair<'_>]) -> Changes<A>
    ensures { ((reply_of result.reply ≡ changes_reply old.now new.now) × (result.opens ≡ opens old.now new.now (map (λ p. pair_of p) allowed.now))) ⊎ (reply_of result.reply ≡ no_memory) }
{
    match access_matrix::changes(alloc, old, new, allowed) {
        Ok(changes) => changes,
        Err(_) => Changes {
            reply: no_memory(),
            opens: false,
        },
    }
}

// The status of a change, after that with which its rows were written.
fn status_after(opens: bool, status: u8) -> u8
    ensures { result ≡ status_after opens status }
{
    if status == 0 && opens { 9 } else { status }
}

/// Writes what roles gain and lose of tables by a change of the schema, with the rights of `root`, as comma-separated text, and returns
/// its status: 0 where no role gains anything that is not allowed, 9 where one does, 7 out of memory, 8 a writer that failed.
pub fn write_changes<A: Heap, W: Out>(
    alloc: A,
    old: &Store<A>,
    new: &Store<A>,
    allowed: &[Pair<'_>],
    out: &mut W,
) -> u8
    ensures sent { let due = changes_reply old.now new.now in
        IsSent (W.taken out.old) (W.taken out.new) (W.failures out.old) (W.failures out.new) result (changes_status (opens old.now new.now (map (λ p. pair_of p) allowed.now))) (reply_text due) (reply_text no_memory) }
{
    let changes = changes(alloc, old, new, allowed);
    let status = write_answer(alloc, &changes.reply, out);
    status_after(changes.opens, status)
}

/// The same as a table in aligned columns.
pub fn write_changes_table<A: Heap, W: Out>(
    alloc: A,
    old: &Store<A>,
    new: &Store<A>,
    allowed: &[Pair<'_>],
    out: &mut W,
) -> u8
    ensures sent { let due = changes_reply old.now new.now in
        IsSent (W.taken out.old) (W.taken out.new) (W.failures out.old) (W.failures out.new) result (changes_status (opens old.now new.now (map (λ p. pair_of p) allowed.now))) (reply_table due) (reply_text no_memory) }
{
    let changes = changes(alloc, old, new, allowed);
    let status = write_table(alloc, &changes.reply, out);
    status_after(changes.opens, status)
}
