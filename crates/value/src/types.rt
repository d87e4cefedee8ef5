//! The values of the three types, and null.

use memory::{Heap, Text};
use std::alloc::AllocError;
use std::borrow::CowStr;

/// A value that owns its text.
#[derive(Debug, Drop)]
pub enum Value<A: Heap> {
    /// No value.
    Null,
    /// A signed number of 64 bits.
    Int(i64),
    /// A text in UTF-8.
    Text(Text<A>),
    /// A truth value.
    Bool(bool),
}

/// A value whose text may be lent.
#[derive(Drop)]
pub enum Val<'a, A: Heap> {
    /// No value.
    Null,
    /// A signed number of 64 bits.
    Int(i64),
    /// A text in UTF-8.
    Text(CowStr<'a, A>),
    /// A truth value.
    Bool(bool),
}

/// A value that is not null, with its text lent.
#[derive(Clone, Copy, Debug, PartialEq, Eq, Hash)]
pub enum Lent<'t> {
    /// A signed number of 64 bits.
    Int(i64),
    /// A text in UTF-8.
    Text(&'t str),
    /// A truth value.
    Bool(bool),
}

/// The type of a column (PostgreSQL: Data Types).
#[derive(Clone, Copy, Debug, PartialEq, Eq)]
pub enum ColType {
    /// `bigint`.
    Bigint,
    /// `text`.
    Text,
    /// `boolean`.
    Boolean,
}

/// The kinds of faults of an evaluation, in the order in which they are reported.
#[derive(Clone, Copy, Debug, PartialEq, Eq, PartialOrd, Ord)]
pub enum FaultKind {
    /// Division by zero (22012).
    Div0,
    /// A number out of range (22003).
    Range,
    /// A text that is no value of the type (22P02).
    BadText,
}

impl<A: Heap> Value<A> {
    ghost use Rattle.std.specs.Prelude.{◌≡◌, IfOk};
    ghost use Rattle.value.specs.Datum.{datum, datum_of};

    /// The value, with its text lent.
    pub fn as_val(&self) -> Val<'_, A>
        ensures { datum_of result ≡ datum self.now }
    {
        match self {
            Value::Null => Val::Null,
            Value::Int(n) => Val::Int(*n),
            Value::Text(text) => Val::Text(CowStr::Borrowed(text.as_str())),
            Value::Bool(b) => Val::Bool(*b),
        }
    }

    /// The same value in memory of its own.
    pub fn copy(&self, alloc: A) -> Result<Value<A>, AllocError>
        ensures { IfOk result (λ copy. datum copy ≡ datum self.now) }
    {
        match self {
            Value::Null => Ok(Value::Null),
            Value::Int(n) => Ok(Value::Int(*n)),
            Value::Text(text) => Ok(Value::Text(Text::new(alloc, text.as_str())?)),
            Value::Bool(b) => Ok(Value::Bool(*b)),
        }
    }
}

impl<'t, A: Heap> Val<'t, A> {
    ghost use Rattle.std.specs.Prelude.{◌≡◌, IfOk};
    ghost use Rattle.value.specs.Datum.{datum, datum_of, null_or};

    /// The value that is lent, or null.
    pub fn of(value: Option<Lent<'t>>) -> Val<'t, A>
        ensures { datum_of result ≡ null_or value.entry }
    {
        match value {
            None => Val::Null,
            Some(Lent::Int(n)) => Val::Int(n),
            Some(Lent::Text(text)) => Val::Text(CowStr::Borrowed(text)),
            Some(Lent::Bool(b)) => Val::Bool(b),
        }
    }

    /// The same value in memory of its own.
    pub fn to_value(&self, alloc: A) -> Result<Value<A>, AllocError>
        ensures { IfOk result (λ copy. datum copy ≡ datum_of self.now) }
    {
        match self {
            Val::Null => Ok(Value::Null),
            Val::Int(n) => Ok(Value::Int(*n)),
            Val::Text(text) => Ok(Value::Text(Text::new(alloc, text.as_str())?)),
            Val::Bool(b) => Ok(Value::Bool(*b)),
        }
    }
}
