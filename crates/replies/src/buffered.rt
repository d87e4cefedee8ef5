//! Bytes that go to a writer through a buffer, which asks for no memory.

ghost use Rattle.std.specs.Prelude.{◌≡◌, ◌+◌, ◌≤◌, ◌++◌, [], OnOk, flat_map, length, vec_len, vec_capacity};
ghost use Rattle.replies.specs.Buffered.{Puts};

use memory::Heap;
use output::{Failed, Out, write_whole};

// Adds bytes for which there is room.
#[inline(always)]
fn append<A: Heap>(buffer: &mut Vec<u8, A>, bytes: &[u8])
    requires { vec_len buffer.old + length bytes.now ≤ vec_capacity buffer.old }
    ensures { buffer.new.items ≡ buffer.old.items ++ bytes.now }
{
    let Ok(()) = buffer.extend_from_slice(bytes) else {
        unreachable!()
    };
}

/// Writes what the buffer has, and empties it.
pub fn drain<A: Heap, W: Out>(out: &mut W, buffer: &mut Vec<u8, A>) -> Result<(), Failed>
    ensures puts { Puts W.taken W.failures out.old out.new buffer.old.items buffer.new.items [] result }
    ensures empty { OnOk result (buffer.new.items ≡ []) }
{
    write_whole(out, buffer)?;
    buffer.clear();
    Ok(())
}

// Puts bytes for which the buffer has no room: it is emptied before. Bytes for which there is no room then are written by themselves.
#[inline(never)]
fn put_past<A: Heap, W: Out>(
    out: &mut W,
    buffer: &mut Vec<u8, A>,
    bytes: &[u8],
) -> Result<(), Failed>
    ensures { Puts W.taken W.failures out.old out.new buffer.old.items buffer.new.items bytes.now result }
{
    drain(out, buffer)?;
    if bytes.len() > buffer.capacity() {
        write_whole(out, bytes)?;
        return Ok(());
    }
    append(buffer, bytes);
    Ok(())
}

/// Puts bytes after what the buffer has.
#[inline(always)]
pub fn put<A: Heap, W: Out>(
    out: &mut W,
    buffer: &mut Vec<u8, A>,
    bytes: &[u8],
) -> Result<(), Failed>
    ensures { Puts W.taken W.failures out.old out.new buffer.old.items buffer.new.items bytes.now result }
{
    if bytes.len() > buffer.capacity() - buffer.len() {
        return put_past(out, buffer, bytes);
    }
    append(buffer, bytes);
    Ok(())
}

/// Puts texts, one after another.
pub fn put_all<A: Heap, W: Out>(
    out: &mut W,
    buffer: &mut Vec<u8, A>,
    texts: &[&str],
) -> Result<(), Failed>
    ensures { Puts W.taken W.failures out.old out.new buffer.old.items buffer.new.items (flat_map (λ t. t.now) texts.now) result }
{
    for text in texts {
        put(out, buffer, text.as_bytes())?;
    }
    Ok(())
}
