//! The texts of replies to events.

ghost use Rattle.std.specs.Prelude.{◌≡◌, ◌++◌, ◌∷◌, [], Err, IfOk, OnOk, codes};
ghost use Rattle.std.specs.Io.KnownBytes.{Appends};
ghost use Rattle.session.specs.ReplyView.{reply_of};
ghost use Rattle.tables.specs.LoadErrors.{load_error_line};
ghost use Rattle.session_scripts.specs.ReplyTexts.{event_text, session_text};

use memory::{Failure, Heap, push_number, push_str};
use output::{Failed, Out, write_whole};
use session::Reply;
use std::alloc::AllocError;
use tables::{LoadError, push_load_error};

fn done_text<A: Heap>(alloc: A) -> Result<Vec<u8, A>, AllocError>
    ensures { IfOk result (λ text. text.items ≡ codes "ok\n") }
{
    let mut text = Vec::new(alloc);
    push_str(&mut text, "ok\n")?;
    Ok(text)
}

fn session_text<A: Heap>(alloc: A, number: u64) -> Result<Vec<u8, A>, AllocError>
    ensures { IfOk result (λ text. text.items ≡ session_text number) }
{
    let mut text = Vec::new(alloc);
    push_str(&mut text, "session ")?;
    push_number(&mut text, number)?;
    push_str(&mut text, "\n")?;
    Ok(text)
}

fn data_text<A: Heap>(
    alloc: A,
    table: &str,
    column: &str,
    error: LoadError,
) -> Result<Vec<u8, A>, AllocError>
    ensures { IfOk result (λ text. text.items ≡ load_error_line table.now column.now error ++ 10 ∷ []) }
{
    let mut text = Vec::new(alloc);
    push_load_error(&mut text, table, column, error)?;
    text.push(b'\n')?;
    Ok(text)
}

/// The text of the reply to an event, with LF after each line.
pub fn reply_text<A: Heap>(alloc: A, reply: Reply<A>) -> Result<Vec<u8, A>, AllocError>
    ensures { IfOk result (λ text. text.items ≡ event_text (reply_of reply)) }
{
    match reply {
        Reply::Engine { reply } => replies::reply_text(alloc, &reply),
        Reply::Done => done_text(alloc),
        Reply::Session { number } => session_text(alloc, number),
        Reply::Data {
            table,
            column,
            error,
        } => data_text(alloc, table.as_str(), column.as_str(), error),
    }
}

// Writes the text of the reply to an event, which is made before.
fn write_made<A: Heap, W: Out>(
    alloc: A,
    reply: Reply<A>,
    out: &mut W,
) -> Result<(), Failure<Failed>>
    ensures whole { OnOk result (Appends (W.taken out.old) (W.taken out.new) (event_text (reply_of reply))) }
    ensures memory { result ≡ Err Failure.OutOfMemory → W.taken out.new ≡ W.taken out.old }
{
    let text = reply_text(alloc, reply)?;
    match write_whole(out, text.as_slice()) {
        Ok(()) => Ok(()),
        Err(failed) => Err(Failure::Error(failed)),
    }
}

/// Writes the text of the reply to an event; nothing of it where memory runs out. A writer that fails has taken a beginning of it, and
/// none is flushed.
pub fn write_reply<A: Heap, W: Out>(
    alloc: A,
    reply: Reply<A>,
    out: &mut W,
) -> Result<(), Failure<Failed>>
    ensures whole { OnOk result (Appends (W.taken out.old) (W.taken out.new) (event_text (reply_of reply))) }
    ensures memory { result ≡ Err Failure.OutOfMemory → W.taken out.new ≡ W.taken out.old }
{
    match reply {
        Reply::Engine { reply } => replies::write_text(alloc, &reply, out),
        reply => write_made(alloc, reply, out),
    }
}
