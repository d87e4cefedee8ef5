//! The records that a reader's bytes are.

ghost use Rattle.std.specs.Prelude.{◌≡◌, ◌≤◌, length, drop, IfOk, IfErr, IfSome, OnOk, option_map};
ghost use Rattle.std.specs.Io.KnownBytes.{Keeps};
ghost use Rattle.csv_records.specs.Fields.{EndsWithin, fields_from};
ghost use Rattle.csv_records.specs.Held.{IsFresh, LineIsHeld, bytes_left};
ghost use Rattle.csv_records.specs.Left.{IsKept, TakesFirst, records_of};
ghost use Rattle.csv_records.specs.declared.RecordError.TheVariants.{Failed};
ghost use Rattle.memory.specs.declared.failure.Failure.TheVariants.{Error, OutOfMemory};
ghost use Rattle.csv_records.specs.Records.{SameNextKnown, StartsWithRecord};

use crate::RecordError;
use crate::copied::Copied;
use crate::plain::{line_ends, plain_record};
use crate::record::Record;
use crate::unread::Unread;
use memory::Failure;
use std::alloc::Global;
use std::io::Read;
use std::marker::Model;

/// The records that a reader's bytes are. A contract sees those that are left, and the fields of the one taken last.
#[derive(Drop)]
pub(crate) struct Source<R: Read> {
    unread: Unread<R>,
    // A byte order mark at the start was passed over, if there was one.
    started: bool,
    // The number of bytes of the record taken last with its end, where these are still held, so that its fields are lent.
    line: Option<usize>,
    // Where its fields end.
    ends: Vec<usize>,
    // The fields of a record that was not found whole among the bytes that were held, or has quotes.
    copied: Copied,
}

impl<R: Read> Model for Source<R> {
    ghost use Rattle.csv_records.specs.Source.{Source};

    ghost Value = { Source };

    ghost use Rattle.csv_records.specs.Held.{source_of, HoldsLast};

    ghost view = { source_of };

    ghost invariant = { HoldsLast };
}

// Passes over the line read last, and at the start over a byte order mark.
fn pass_last<R: Read>(
    unread: &mut Unread<R>,
    started: bool,
    line: Option<usize>,
) -> Result<(), Failure<RecordError>>
    requires fresh { IsFresh started line unread.old }
    requires held { LineIsHeld line unread.old.held }
    ensures left { OnOk result (Keeps (option_map (bytes_left started line) unread.old.left) unread.new.left) }
    ensures fails { IfErr result (λ e. e ≡ Error Failed) }
{
    if !started {
        return unread.pass_mark();
    }
    if let Some(count) = line {
        unread.pass(count);
    }
    Ok(())
}

// Finds the next record where it is held whole and has no quotes: the number of its bytes with its end. Line ends before it are passed
// over.
fn find_plain<R: Read>(
    unread: &mut Unread<R>,
    ends: &mut Vec<usize>,
) -> Result<Option<usize>, Failure<RecordError>>
    ensures same { SameNextKnown unread.old.left unread.new.left }
    ensures held { IfOk result (λ found. LineIsHeld found unread.new.held) }
    ensures ends { IfOk result (λ found. IfSome found (λ count. EndsWithin (length unread.new.held) 0 ends.new.items)) }
    ensures record { IfOk result (λ found. IfSome found (λ count. IfSome unread.new.left (λ xs. StartsWithRecord xs (fields_from unread.new.held 0 ends.new.items) (drop count xs)))) }
    ensures fails { IfErr result (λ e. e ≡ OutOfMemory) }
{
    let ended = line_ends(unread.held());
    unread.pass(ended);
    match plain_record(unread.held(), ends)? {
        Some(count) => Ok(Some(count + 1)),
        None => Ok(None),
    }
}

impl<R: Read> Source<R> {
    /// The records of all that `rdr` gives.
    pub(crate) fn new(alloc: Global, rdr: R) -> Source<R>
        ensures { result.records ≡ option_map records_of (R.remaining rdr) }
    {
        Source {
            unread: Unread::new(rdr),
            started: false,
            line: None,
            ends: Vec::new(alloc),
            copied: Copied::new(alloc),
        }
    }

    /// The fields of the record taken last.
    pub(crate) fn record(&self) -> Record<'_>
        ensures { result ≡ self.now.fields }
    {
        match self.line {
            Some(_) => Record::new(self.unread.held(), &self.ends),
            None => self.copied.record(),
        }
    }

    /// Takes the next record. True where there is one.
    pub(crate) fn next(&mut self) -> Result<bool, Failure<RecordError>>
        ensures takes { IfOk result (λ found. TakesFirst self.old.records self.new.records found self.new.fields) }
        ensures fails { IfErr result (λ e. IsKept e) }
    {
        let (started, line) = (self.started, self.line);
        self.started = true;
        self.line = None;
        pass_last(&mut self.unread, started, line)?;
        if let Some(count) = find_plain(&mut self.unread, &mut self.ends)? {
            self.line = Some(count);
            return Ok(true);
        }
        let found = self.copied.read(&mut self.unread)?;
        Ok(found)
    }
}
