//! The bytes of a reader that are left, some of which are held.

ghost use Rattle.std.specs.Prelude.{◌≡◌, ◌++◌, ◌<◌, ◌≤◌, ◌⊎◌, [], ◌∷◌, ℕ, List, length, drop, option_map, true, false, IfErr, IfOk, IfSome, OnOk, Some, None};
ghost use Rattle.std.specs.Io.KnownBytes.{Consumes, IsAtEnd, Keeps};
ghost use Rattle.csv.specs.Reading.{is_bom, strip_bom};
ghost use Rattle.csv_records.specs.declared.RecordError.TheVariants.{Failed};
ghost use Rattle.memory.specs.declared.failure.Failure.TheVariants.{Error};
ghost use Rattle.csv_records.specs.Unread.{AllAreHeld, StartsLeft, TakesByte, has_mark};

use crate::RecordError;
use memory::Failure;
use std::io::Read;
use std::marker::Model;

/// The most bytes that are held.
pub(crate) const HELD: usize = 16384;

/// The bytes of a reader that are left: some of them are held, and the others are those that the reader has. A contract sees how many
/// were passed over since bytes were read, those that are held, and all that are left, where they are known.
#[derive(Drop)]
pub(crate) struct Unread<R: Read> {
    rdr: R,
    buffer: [u8; HELD],
    at: usize,
    filled: usize,
}

impl<R: Read> Model for Unread<R> {
    ghost use Rattle.csv_records.specs.Unread.{Unread};

    ghost Value = { Unread };

    ghost use Rattle.csv_records.specs.Buffer.{unread_of, IsBuffer};

    ghost view = { unread_of R.remaining };

    ghost invariant = { IsBuffer };
}

// True where three bytes are a byte order mark, U+FEFF in UTF-8.
fn is_mark(a: u8, b: u8, c: u8) -> bool
    ensures { result ≡ is_bom a b c }
{
    a == 0xef && b == 0xbb && c == 0xbf
}

// True where bytes begin with a byte order mark.
fn has_mark(bytes: &[u8]) -> bool
    ensures { result ≡ has_mark bytes.now }
{
    match bytes {
        [a, b, c, ..] => is_mark(*a, *b, *c),
        _ => false,
    }
}

impl<R: Read> Unread<R> {
    /// All bytes of a reader. None is held.
    pub(crate) fn new(rdr: R) -> Unread<R>
        ensures passed { result.passed ≡ 0 }
        ensures held { result.held ≡ [] }
        ensures left { result.left ≡ R.remaining rdr }
    {
        Unread {
            rdr,
            buffer: [0; HELD],
            at: 0,
            filled: 0,
        }
    }

    /// The bytes that are held.
    pub(crate) fn held(&self) -> &[u8]
        ensures held { result.now ≡ self.now.held }
        ensures left { StartsLeft self.now }
    {
        let all = &self.buffer[..];
        &all[self.at..self.filled]
    }

    /// Passes over the first so many of the bytes that are held.
    pub(crate) fn pass(&mut self, count: usize)
        requires { count ≤ length self.old.held }
        ensures held { self.new.held ≡ drop count self.old.held }
        ensures left { self.new.left ≡ option_map (drop count) self.old.left }
    {
        self.at += count;
    }

    // Reads more bytes behind those that are held. False at the end.
    fn more(&mut self) -> Result<bool, Failure<RecordError>>
        requires passed { self.old.passed ≡ 0 }
        requires room { length self.old.held < HELD }
        ensures kept { OnOk result (Keeps self.old.left self.new.left) }
        ensures passed { OnOk result (self.new.passed ≡ 0) }
        ensures grown { IfOk result (λ more. more ≡ true → length self.old.held < length self.new.held) }
        ensures end { IfOk result (λ more. more ≡ false → (self.new.held ≡ self.old.held) × AllAreHeld self.new) }
        ensures fails { IfErr result (λ e. e ≡ Error Failed) }
    {
        match self.rdr.read(&mut self.buffer[self.filled..]) {
            Ok(count) => {
                self.filled += count;
                Ok(count > 0)
            }
            Err(_) => Err(Failure::Error(RecordError::Failed)),
        }
    }

    // Reads bytes where none is held. False at the end.
    fn refill(&mut self) -> Result<bool, Failure<RecordError>>
        requires { self.old.held ≡ [] }
        ensures kept { OnOk result (Keeps self.old.left self.new.left) }
        ensures grown { IfOk result (λ more. more ≡ true → 0 < length self.new.held) }
        ensures end { IfOk result (λ more. more ≡ false → (self.new.held ≡ []) × AllAreHeld self.new) }
        ensures fails { IfErr result (λ e. e ≡ Error Failed) }
    {
        self.at = 0;
        self.filled = 0;
        self.more()
    }

    // Holds a byte, if one is left.
    fn hold_one(&mut self) -> Result<bool, Failure<RecordError>>
        ensures kept { OnOk result (Keeps self.old.left self.new.left) }
        ensures some { IfOk result (λ some. some ≡ true → 0 < length self.new.held) }
        ensures end { IfOk result (λ some. some ≡ false → (self.new.held ≡ []) × AllAreHeld self.new) }
        ensures fails { IfErr result (λ e. e ≡ Error Failed) }
    {
        if self.at < self.filled {
            Ok(true)
        } else {
            self.refill()
        }
    }

    // Takes the first of the bytes that are held.
    fn take_held(&mut self) -> u8
        requires { 0 < length self.old.held }
        ensures { Consumes self.old.left self.new.left (result ∷ []) }
    {
        let byte = self.buffer[self.at];
        self.at += 1;
        byte
    }

    /// Takes the next byte, if there is one.
    pub(crate) fn next(&mut self) -> Result<Option<u8>, Failure<RecordError>>
        ensures takes { IfOk result (λ byte. TakesByte self.old.left self.new.left byte) }
        ensures fails { IfErr result (λ e. e ≡ Error Failed) }
    {
        if self.hold_one()? {
            Ok(Some(self.take_held()))
        } else {
            Ok(None)
        }
    }

    // Reads more bytes where fewer than three are held. False where three are held, or all that are left.
    fn wants_more(&mut self) -> Result<bool, Failure<RecordError>>
        requires passed { self.old.passed ≡ 0 }
        ensures kept { OnOk result (Keeps self.old.left self.new.left) }
        ensures passed { OnOk result (self.new.passed ≡ 0) }
        ensures grown { IfOk result (λ more. more ≡ true → length self.old.held < length self.new.held) }
        ensures enough { IfOk result (λ more. more ≡ false → (3 ≤ length self.new.held) ⊎ AllAreHeld self.new) }
        ensures fails { IfErr result (λ e. e ≡ Error Failed) }
    {
        if self.filled < 3 {
            self.more()
        } else {
            Ok(false)
        }
    }

    // Holds the first three bytes, or all that there are.
    fn hold_three(&mut self) -> Result<(), Failure<RecordError>>
        requires passed { self.old.passed ≡ 0 }
        ensures kept { OnOk result (Keeps self.old.left self.new.left) }
        ensures enough { OnOk result ((3 ≤ length self.new.held) ⊎ AllAreHeld self.new) }
        ensures fails { IfErr result (λ e. e ≡ Error Failed) }
    {
        if self.wants_more()? && self.wants_more()? {
            self.wants_more()?;
        }
        Ok(())
    }

    /// Passes over a byte order mark at the start, if there is one.
    pub(crate) fn pass_mark(&mut self) -> Result<(), Failure<RecordError>>
        requires passed { self.old.passed ≡ 0 }
        ensures left { OnOk result (Keeps (option_map strip_bom self.old.left) self.new.left) }
        ensures fails { IfErr result (λ e. e ≡ Error Failed) }
    {
        self.hold_three()?;
        if has_mark(self.held()) {
            self.pass(3);
        }
        Ok(())
    }
}
