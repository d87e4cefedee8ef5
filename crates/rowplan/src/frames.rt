//! Frames: an event is a line with its number of bytes and then these bytes, and so is a reply.

use crate::failure::ProgramError;
use crate::files::unreadable;
use crate::script::{event_of, write_text};
use memory::{Failure, push_number, push_str};
use session_scripts::{Core, ScriptLine, read_line, reply_text};
use setup::SetupError;
use std::alloc::{AllocError, Global};
use std::fs::File;
use std::io::{BufRead, BufReader, Read};
use std::{io, str};

// The greatest number of bytes of an event.
const MOST_BYTES: u64 = 1_048_576;

// The greatest number of bytes of a frame's first line: 20 digits and an LF.
const LONGEST_LINE: u64 = 21;

// What comes next in an input.
#[derive(Drop)]
enum Next {
    Frame(Vec<u8>),
    Broken,
    End,
}

// The first line of a frame of this number of bytes.
fn first_line(alloc: Global, size: u64) -> Result<Vec<u8>, AllocError> {
    let mut line = Vec::new(alloc);
    push_number(&mut line, size)?;
    push_str(&mut line, "\n")?;
    Ok(line)
}

// The number of bytes of the frame with this first line; nothing where it is no first line, or the number is too great.
fn size_of_frame(alloc: Global, line: &[u8]) -> Result<Option<u64>, AllocError> {
    let Ok(text) = str::from_utf8(line) else {
        return Ok(None);
    };
    let digits = text.strip_suffix('\n').unwrap_or("");
    match digits.parse::<u64>() {
        Ok(size) if size <= MOST_BYTES => {
            let is_same = first_line(alloc, size)?.as_slice() == line;
            Ok(if is_same { Some(size) } else { None })
        }
        _ => Ok(None),
    }
}

// Reads a frame: no byte after it, and no more of a line than a first line has.
fn next_frame<R: BufRead>(alloc: Global, input: &mut R) -> io::Result<Next> {
    let mut line = Vec::new(alloc);
    let mut start = input.by_ref().take(LONGEST_LINE);
    if start.read_until(b'\n', &mut line)? == 0 {
        return Ok(Next::End);
    }
    let Some(size) = size_of_frame(alloc, line.as_slice())? else {
        return Ok(Next::Broken);
    };
    let mut bytes = Vec::new(alloc);
    let count = input.by_ref().take(size).read_to_end(&mut bytes)?;
    Ok(if count as u64 == size {
        Next::Frame(bytes)
    } else {
        Next::Broken
    })
}

fn refused(alloc: Global, code: &str) -> Result<Vec<u8>, AllocError> {
    let mut text = Vec::new(alloc);
    push_str(&mut text, "refused ")?;
    push_str(&mut text, code)?;
    push_str(&mut text, "\n")?;
    Ok(text)
}

// The event of these bytes, or a load of a file; nothing where they are no event.
fn read_event(alloc: Global, bytes: &[u8]) -> Result<Option<ScriptLine<Global>>, AllocError> {
    match str::from_utf8(bytes) {
        Ok(text) => read_line(alloc, text),
        Err(_) => Ok(None),
    }
}

// Takes the event of a frame. Bytes that are no event, and a load of a file that cannot be read, are refused and change nothing.
fn reply_to(
    rt: &HostRuntime,
    alloc: Global,
    core: &mut Core<Global>,
    bytes: &[u8],
) -> Result<Vec<u8>, Failure<SetupError<Global>>> {
    let Some(line) = read_event(alloc, bytes)? else {
        return Ok(refused(alloc, "08P01")?);
    };
    match event_of(rt, alloc, line) {
        Ok(event) => Ok(reply_text(alloc, core.step(event))?),
        Err(Failure::Error(_)) => Ok(refused(alloc, "58P01")?),
        Err(Failure::OutOfMemory) => Err(Failure::OutOfMemory),
    }
}

// Takes the event of a frame, and writes the reply as a frame.
fn answer_frame(
    rt: &HostRuntime,
    alloc: Global,
    core: &mut Core<Global>,
    bytes: &[u8],
) -> Result<(), ProgramError> {
    let reply = reply_to(rt, alloc, core, bytes)?;
    let mut text = first_line(alloc, reply.len() as u64)?;
    text.extend_from_slice(reply.as_slice())?;
    write_text(rt, text.as_slice())
}

// The same of all frames of a reader, each before the next is read.
fn answer_reader<R: Read + Drop>(
    rt: &HostRuntime,
    alloc: Global,
    core: &mut Core<Global>,
    path: &str,
    reader: R,
) -> Result<(), ProgramError> {
    let mut input = match BufReader::new(alloc, reader) {
        Ok(input) => input,
        Err(error) => return Err(ProgramError::Setup(unreadable(alloc, path, &error))),
    };
    for number in 1..u64::MAX {
        match next_frame(alloc, &mut input) {
            Ok(Next::Frame(bytes)) => answer_frame(rt, alloc, core, bytes.as_slice())?,
            Ok(Next::Broken) => return Err(ProgramError::Frame(number)),
            Ok(Next::End) => return Ok(()),
            Err(error) => return Err(ProgramError::Setup(unreadable(alloc, path, &error))),
        }
    }
    Ok(())
}

/// Takes the events of the frames of a file, or of standard input where the path is `-`, and writes the reply to each as a frame,
/// before the next is read. A frame that is broken, an input that cannot be read and a reply that is not written end it.
pub fn answer_frames(
    rt: &HostRuntime,
    alloc: Global,
    core: &mut Core<Global>,
    path: &str,
) -> Result<(), ProgramError> {
    if path == "-" {
        return answer_reader(rt, alloc, core, path, rt.stdin());
    }
    match File::open(rt, path) {
        Ok(file) => answer_reader(rt, alloc, core, path, file),
        Err(error) => Err(ProgramError::Setup(unreadable(alloc, path, &error))),
    }
}
