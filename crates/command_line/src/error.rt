//! The errors of a command line, and its help.

ghost use Rattle.std.specs.Prelude.{◌≡◌};
ghost use Rattle.command_line.specs.Errors.{exit_status, unread_words};

use clap::Error;
use clap::error::ErrorKind;
use std::alloc::{AllocError, AllocFailed};
use std::io;

/// The result of a command line without a request.
#[derive(Drop)]
pub enum CommandLineError {
    /// A usage error, with its text.
    Usage(Error),
    /// A usage error: a word is no UTF-8.
    InvalidUtf8,
    /// Help or the version was asked for, which is the text.
    Help(Error),
    /// A growth of memory was refused.
    OutOfMemory,
}

/// The error of words that were not read, by the kind of the failure: out of memory, or else a usage error, since one of them is
/// no UTF-8.
pub fn unread_words(kind: io::ErrorKind) -> CommandLineError
    ensures { result ≡ unread_words kind }
{
    match kind {
        io::ErrorKind::OutOfMemory => CommandLineError::OutOfMemory,
        _ => CommandLineError::InvalidUtf8,
    }
}

impl CommandLineError {
    /// The exit status of the program.
    pub fn status(&self) -> u8
        ensures { result ≡ exit_status self.now }
    {
        match self {
            CommandLineError::Usage(_) | CommandLineError::InvalidUtf8 => 2,
            CommandLineError::Help(_) => 0,
            CommandLineError::OutOfMemory => 7,
        }
    }
}

impl From<AllocError> for CommandLineError {
    fn from(_error: AllocError) -> CommandLineError {
        CommandLineError::OutOfMemory
    }
}

impl<T: Drop> From<AllocFailed<T>> for CommandLineError {
    fn from(_error: AllocFailed<T>) -> CommandLineError {
        CommandLineError::OutOfMemory
    }
}

impl From<Error> for CommandLineError {
    fn from(error: Error) -> CommandLineError {
        match error.kind() {
            ErrorKind::OutOfMemory => CommandLineError::OutOfMemory,
            ErrorKind::DisplayHelp | ErrorKind::DisplayVersion => CommandLineError::Help(error),
            _ => CommandLineError::Usage(error),
        }
    }
}
