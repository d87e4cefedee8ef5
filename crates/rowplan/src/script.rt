//! The events of the lines of a script of sessions, and the replies to them.

use crate::failure::ProgramError;
use crate::files::unreadable;
use memory::Failure;
use output::{Output, write_whole};
use session_scripts::{Core, Event, ScriptLine, read_line, without_end, write_reply};
use setup::SetupError;
use std::alloc::{AllocError, Global};
use std::io::{BufRead, BufReader, Write};
use std::{fs, io};

/// The event of a line: the bytes of a load are those of its file.
pub fn event_of(
    rt: &HostRuntime,
    alloc: Global,
    line: ScriptLine<Global>,
) -> Result<Event<Global>, Failure<SetupError<Global>>> {
    match line {
        ScriptLine::Event { event } => Ok(event),
        ScriptLine::Load { table, path } => match fs::read(rt, path.as_str()) {
            Ok(bytes) => Ok(Event::Load { table, bytes }),
            Err(error) => Err(unreadable(alloc, path.as_str(), &error)),
        },
    }
}

/// Writes a text to standard output at once.
pub fn write_text(rt: &HostRuntime, text: &[u8]) -> Result<(), ProgramError> {
    let mut out = Output {
        inner: io::writer(rt),
        failed: 0,
    };
    match write_whole(&mut out, text) {
        Ok(()) => out.inner.flush().map_err(|_| ProgramError::Output),
        Err(_) => Err(ProgramError::Output),
    }
}

// Takes the event of the line of a number, and writes the reply.
fn answer_line(
    rt: &HostRuntime,
    alloc: Global,
    core: &mut Core<Global>,
    number: u64,
    line: &str,
) -> Result<(), ProgramError> {
    let Some(line) = read_line(alloc, line)? else {
        return Err(ProgramError::Line(number));
    };
    let event = event_of(rt, alloc, line)?;
    let mut out = Output {
        inner: io::writer(rt),
        failed: 0,
    };
    match write_reply(alloc, core.step(event), &mut out) {
        Ok(()) => out.inner.flush().map_err(|_| ProgramError::Output),
        Err(Failure::OutOfMemory) => Err(ProgramError::from(AllocError)),
        Err(Failure::Error(_)) => Err(ProgramError::Output),
    }
}

/// Takes the events of a script, in order, and writes the reply to each. A line that is no event, a file that cannot be read and a
/// reply that is not written end it.
pub fn answer_text(
    rt: &HostRuntime,
    alloc: Global,
    core: &mut Core<Global>,
    script: &str,
) -> Result<(), ProgramError> {
    let mut number = 0u64;
    for line in script.split_inclusive('\n') {
        number = number.saturating_add(1);
        answer_line(rt, alloc, core, number, without_end(line))?;
    }
    Ok(())
}

/// The same of the lines of standard input: each is answered before the next is read.
pub fn answer_input(
    rt: &HostRuntime,
    alloc: Global,
    core: &mut Core<Global>,
) -> Result<(), ProgramError> {
    let mut input = match BufReader::new(alloc, rt.stdin()) {
        Ok(input) => input,
        Err(error) => return Err(ProgramError::Setup(unreadable(alloc, "-", &error))),
    };
    for number in 1..u64::MAX {
        let mut line = String::new(alloc);
        match input.read_line(&mut line) {
            Ok(0) => return Ok(()),
            Ok(_) => answer_line(rt, alloc, core, number, without_end(line.as_str()))?,
            Err(error) => return Err(ProgramError::Setup(unreadable(alloc, "-", &error))),
        }
    }
    Ok(())
}
