//! Records that are read byte by byte, whose fields are copied.

ghost use Rattle.std.specs.Prelude.{◌≡◌, ◌++◌, [], ◌∷◌, true, IfErr, IfOk, OnOk};
ghost use Rattle.csv.specs.Machine.{ends_at_end, field_after, fields_after, is_end};
ghost use Rattle.csv_records.specs.Left.{IsKept};
ghost use Rattle.csv_records.specs.Machine.{action_of, state_of};
ghost use Rattle.csv_records.specs.Records.{TakesRecord};

use crate::RecordError;
use crate::machine::{Act, Place, step};
use crate::record::Record;
use crate::unread::Unread;
use memory::Failure;
use std::alloc::{AllocError, Global};
use std::io::Read;
use std::marker::Model;

/// The fields of a record, copied. A contract sees the fields so far, and the bytes of the one at hand.
#[derive(Drop)]
pub(crate) struct Copied {
    bytes: Vec<u8>,
    // Where each field ends; the next one starts one byte later.
    ends: Vec<usize>,
}

impl Model for Copied {
    ghost use Rattle.csv_records.specs.Partial.{Partial};

    ghost Value = { Partial };

    ghost use Rattle.csv_records.specs.Copied.{copied_of, AreCopied};

    ghost view = { copied_of };

    ghost invariant = { AreCopied };
}

impl Copied {
    /// No fields.
    pub(crate) fn new(alloc: Global) -> Copied
        ensures fields { result.fields ≡ [] }
        ensures field { result.field ≡ [] }
    {
        Copied {
            bytes: Vec::new(alloc),
            ends: Vec::new(alloc),
        }
    }

    /// The fields.
    pub(crate) fn record(&self) -> Record<'_>
        ensures { result ≡ self.now.fields }
    {
        Record::new(&self.bytes, &self.ends)
    }

    // Drops all fields.
    fn clear(&mut self)
        ensures fields { self.new.fields ≡ [] }
        ensures field { self.new.field ≡ [] }
    {
        self.ends.clear();
        self.bytes.clear();
    }

    // The field at hand ends.
    fn end_field(&mut self) -> Result<(), AllocError>
        ensures fields { OnOk result (self.new.fields ≡ self.old.fields ++ self.old.field ∷ []) }
        ensures field { OnOk result (self.new.field ≡ []) }
    {
        let end = self.bytes.len();
        self.bytes.push(b',')?;
        self.ends.push(end)?;
        Ok(())
    }

    // A byte joins the field at hand.
    fn join(&mut self, byte: u8) -> Result<(), AllocError>
        ensures fields { OnOk result (self.new.fields ≡ self.old.fields) }
        ensures field { OnOk result (self.new.field ≡ self.old.field ++ byte ∷ []) }
    {
        self.bytes.push(byte)?;
        Ok(())
    }

    // A byte does something to the fields. True where the record ends.
    fn take(&mut self, byte: u8, act: Act) -> Result<bool, AllocError>
        ensures fields { OnOk result (self.new.fields ≡ fields_after (action_of act) self.old.fields self.old.field) }
        ensures field { OnOk result (self.new.field ≡ field_after (action_of act) byte self.old.field) }
        ensures end { IfOk result (λ end. end ≡ is_end (action_of act)) }
    {
        match act {
            Act::Skip => Ok(false),
            Act::Copy => {
                self.join(byte)?;
                Ok(false)
            }
            Act::EndField => {
                self.end_field()?;
                Ok(false)
            }
            Act::EndRecord => {
                self.end_field()?;
                Ok(true)
            }
        }
    }

    // At the end of the bytes a record ends, if one was begun. True where it was.
    fn end(&mut self, place: Place) -> Result<bool, AllocError>
        ensures end { IfOk result (λ end. end ≡ ends_at_end (state_of place)) }
        ensures fields { IfOk result (λ end. end ≡ true → self.new.fields ≡ self.old.fields ++ self.old.field ∷ []) }
    {
        if place == Place::Record {
            return Ok(false);
        }
        self.end_field()?;
        Ok(true)
    }

    /// Copies the next record byte by byte. True where there is one.
    pub(crate) fn read<R: Read>(
        &mut self,
        unread: &mut Unread<R>,
    ) -> Result<bool, Failure<RecordError>>
        ensures takes { IfOk result (λ found. TakesRecord unread.old.left unread.new.left found self.new.fields) }
        ensures fails { IfErr result (λ e. IsKept e) }
    {
        self.clear();
        let mut place = Place::Record;
        for _ in 0..usize::MAX {
            let Some(byte) = unread.next()? else {
                return Ok(self.end(place)?);
            };
            let (next, act) = step(place, byte);
            place = next;
            if self.take(byte, act)? {
                return Ok(true);
            }
        }
        Err(Failure::OutOfMemory)
    }
}
