//! The errors that stop the program before a reply.

use command_line::CommandLineError;
use memory::Failure;
use output::Output;
use setup::{SetupError, report};
use std::alloc::{AllocError, Global};

/// An error of a program without a reply.
#[derive(Drop)]
pub enum ProgramError {
    /// The command line has no request.
    CommandLine(CommandLineError),
    /// There is no store, or a file of a script cannot be read.
    Setup(Failure<SetupError<Global>>),
    /// The line of a script with this number, from 1, is no event.
    Line(u64),
    /// The frame of a script with this number, from 1, is broken.
    Frame(u64),
    /// A reply was not written.
    Output,
}

impl From<AllocError> for ProgramError {
    fn from(_error: AllocError) -> ProgramError {
        ProgramError::Setup(Failure::OutOfMemory)
    }
}

impl From<Failure<SetupError<Global>>> for ProgramError {
    fn from(failure: Failure<SetupError<Global>>) -> ProgramError {
        ProgramError::Setup(failure)
    }
}

impl From<CommandLineError> for ProgramError {
    fn from(error: CommandLineError) -> ProgramError {
        ProgramError::CommandLine(error)
    }
}

/// Writes the line of a failure to standard error, and returns its exit status.
pub fn report_failure(rt: &HostRuntime, failure: &Failure<SetupError<Global>>) -> u8 {
    let mut out = Output {
        inner: rt.stderr(),
        failed: 0,
    };
    report(rt.alloc(), failure, &mut out)
}

// The message of a word that is no UTF-8, as clap has it.
const INVALID_UTF8: &str = "\
error: invalid UTF-8 was detected in one or more arguments

Usage: rowplan <COMMAND>

For more information, try '--help'.
";

// Prints the error of the command line, help to standard output and all else to standard error.
fn print_command_line(rt: &HostRuntime, error: &CommandLineError) {
    match error {
        CommandLineError::Help(text) => {
            let _ = print!(rt; "{text}");
        }
        CommandLineError::Usage(text) => {
            let _ = eprint!(rt; "{text}");
        }
        CommandLineError::InvalidUtf8 => {
            let _ = eprint!(rt; "{INVALID_UTF8}");
        }
        CommandLineError::OutOfMemory => {
            report_failure(rt, &Failure::OutOfMemory);
        }
    }
}

/// Prints the error that stopped the program, help to standard output and all else to standard error, and returns the
/// exit status.
pub fn print_error(rt: &HostRuntime, error: &ProgramError) -> u8 {
    match error {
        ProgramError::CommandLine(error) => {
            print_command_line(rt, error);
            error.status()
        }
        ProgramError::Setup(failure) => report_failure(rt, failure),
        ProgramError::Line(number) => {
            let _ = eprintln!(rt; "line {number}");
            3
        }
        ProgramError::Frame(number) => {
            let _ = eprintln!(rt; "frame {number}");
            3
        }
        ProgramError::Output => 8,
    }
}
