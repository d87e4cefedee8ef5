//! Records, one after another.

ghost use Rattle.std.specs.Prelude.{◌≡◌, true, false, None, Ok, IfOk, IfErr, OnErr, OnOk, IsSome, is_some, option_map};
ghost use Rattle.memory.specs.declared.failure.Failure.TheVariants.{Error};
ghost use Rattle.csv_records.specs.Left.{TakesNext, NextIsUneven, SkipsOne, counted, failure_after, records_of};
ghost use Rattle.csv_records.specs.declared.RecordError.TheVariants.{Uneven};

use crate::RecordError;
use crate::record::Record;
use crate::source::Source;
use memory::Failure;
use std::alloc::Global;
use std::io::Read;
use std::marker::Model;

/// A reader of records. A contract sees the records that are left, where the bytes underneath are known, the fields of the record
/// read last, the number of fields that each must have, once there was one, the number of records given, and the failure of a read,
/// if there was one.
#[derive(Drop)]
pub struct Records<R: Read> {
    source: Source<R>,
    expected: Option<usize>,
    // The number of records given; it stays at the greatest number.
    given: u64,
    // The error that ended the reading.
    failure: Option<Failure<RecordError>>,
}

impl<R: Read> Model for Records<R> {
    ghost use Rattle.csv_records.specs.Left.{Left};

    ghost Value = { Left };

    ghost use Rattle.csv_records.specs.Reader.{left_of};

    ghost view = { left_of };
}

impl<R: Read> Records<R> {
    /// The records of all that `rdr` gives: fields between commas, in double quotes or not, and no header row. A byte
    /// order mark at the start is no part of them, and an empty line is no record.
    pub fn new(alloc: Global, rdr: R) -> Records<R>
        ensures records { result.records ≡ option_map records_of (R.remaining rdr) }
        ensures expected { result.expected ≡ None }
        ensures given { result.given ≡ 0 }
        ensures fresh { result.failure ≡ None }
    {
        Records {
            source: Source::new(alloc, rdr),
            expected: None,
            given: 0,
            failure: None,
        }
    }

    /// True where a read failed.
    pub fn has_failed(&self) -> bool
        ensures { result ≡ is_some self.now.failure }
    {
        self.failure.is_some()
    }

    /// The fields of the record read last.
    pub fn record(&self) -> Record<'_>
        ensures { result ≡ self.now.fields }
    {
        self.source.record()
    }

    /// Reads the next record, or reports by `false` that there is none. After `Uneven`, which passes over one record, the later
    /// ones can be read. Another error is a failure that is kept, and there are no more records after it.
    pub fn read(&mut self) -> Result<bool, Failure<RecordError>>
        ensures reads { IfOk result (λ found. TakesNext self.old self.new found self.new.fields) }
        ensures given { IfOk result (λ found. self.new.given ≡ counted found self.old.given) }
        ensures no_more { OnErr result (self.new.given ≡ self.old.given) }
        ensures goes_on { OnOk result (self.new.failure ≡ self.old.failure) }
        ensures over { IsSome self.old.failure → result ≡ Ok false }
        ensures keeps { IfErr result (λ e. self.new.failure ≡ failure_after e) }
        ensures uneven { IfErr result (λ e. e ≡ Error Uneven → NextIsUneven self.old) }
        ensures skips { IfErr result (λ e. e ≡ Error Uneven → SkipsOne self.old self.new) }
    {
        if self.failure.is_some() {
            return Ok(false);
        }
        match self.source.next() {
            Ok(false) => Ok(false),
            Ok(true) => {
                let fields = self.source.record().len();
                if self.expected.unwrap_or(fields) != fields {
                    return Err(Failure::Error(RecordError::Uneven));
                }
                self.expected = Some(fields);
                self.given = self.given.saturating_add(1);
                Ok(true)
            }
            Err(error) => {
                self.failure = Some(error);
                Err(error)
            }
        }
    }
}
