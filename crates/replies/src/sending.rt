//! The texts of replies: written to a writer, or whole.

ghost use Rattle.std.specs.Prelude.{◌≡◌, [], Err, IfOk, OnOk};
ghost use Rattle.std.specs.Io.KnownBytes.{Appends};
ghost use Rattle.output.specs.Sent.{IsSent};
ghost use Rattle.output.specs.Taken.{Begins, GoesOut, one_more};
ghost use Rattle.replies.specs.Reply.{no_memory, reply_status};
ghost use Rattle.replies.specs.ReplyText.{reply_text};
ghost use Rattle.replies.specs.View.{reply_of};

use crate::buffered::drain;
use crate::reply::Reply;
use crate::status::reply_status;
use crate::writing::put_reply;
use memory::{Failure, Heap};
use output::{Failed, Out, Output, send};
use std::alloc::AllocError;

// The number of bytes that are written at once.
const BUFFER_SIZE: usize = 65_536;

// The number of bytes that are added to a whole text at once.
const PART_SIZE: usize = 4096;

// Writes the text of a reply through an empty buffer.
fn write_through<A: Heap, W: Out>(
    out: &mut W,
    buffer: &mut Vec<u8, A>,
    reply: &Reply<A>,
) -> Result<(), Failed>
    requires { buffer.old.items ≡ [] }
    ensures { GoesOut (W.taken out.old) (W.taken out.new) (W.failures out.old) (W.failures out.new) (reply_text (reply_of reply.now)) result }
{
    put_reply(out, buffer, reply)?;
    drain(out, buffer)?;
    Ok(())
}

/// Writes the text of a reply. Memory is asked for once, before the first byte is written; a writer that fails has taken a beginning
/// of the text, and none is flushed.
pub fn write_text<A: Heap, W: Out>(
    alloc: A,
    reply: &Reply<A>,
    out: &mut W,
) -> Result<(), Failure<Failed>>
    ensures whole { OnOk result (Appends (W.taken out.old) (W.taken out.new) (reply_text (reply_of reply.now)) × (W.failures out.new ≡ W.failures out.old)) }
    ensures memory { result ≡ Err Failure.OutOfMemory → out.new ≡ out.old }
    ensures failed { (e : _) → result ≡ Err (Failure.Error e) → (W.failures out.new ≡ one_more (W.failures out.old)) × Begins (W.taken out.old) (W.taken out.new) (reply_text (reply_of reply.now)) }
{
    let mut buffer = Vec::with_capacity(alloc, BUFFER_SIZE)?;
    match write_through(out, &mut buffer, reply) {
        Ok(()) => Ok(()),
        Err(failed) => Err(Failure::Error(failed)),
    }
}

/// Writes the text of a reply, and gives its status; or 7 where memory ran out, with the line of that, or 8 where the writer failed.
/// Memory is asked for once, before the first byte is written. The writer is not flushed.
pub fn write_reply<A: Heap, W: Out>(alloc: A, reply: &Reply<A>, out: &mut W) -> u8
    // The whole text of the reply, and its status; or memory ran out, or the writer failed.
    ensures sent { let due = reply_of reply.now in
        IsSent (W.taken out.old) (W.taken out.new) (W.failures out.old) (W.failures out.new) result (reply_status due) (reply_text due) (reply_text no_memory) }
{
    match write_text(alloc, reply, out) {
        Ok(()) => reply_status(reply),
        Err(Failure::Error(_)) => 8,
        Err(Failure::OutOfMemory) => send(out, b"refused 53200\n".as_slice(), 7),
    }
}

/// The text of a reply: header and rows as comma-separated fields, or one line, with LF after each line.
pub fn reply_text<A: Heap>(alloc: A, reply: &Reply<A>) -> Result<Vec<u8, A>, AllocError>
    ensures { IfOk result (λ text. text.items ≡ reply_text (reply_of reply.now)) }
{
    let mut buffer = Vec::with_capacity(alloc, PART_SIZE)?;
    let mut text = Output {
        inner: Vec::new(alloc),
        failed: 0,
    };
    match write_through(&mut text, &mut buffer, reply) {
        Ok(()) => Ok(text.inner),
        Err(_) => Err(AllocError),
    }
}
