//! The reasons for which a text or a statement is refused.

ghost use Rattle.std.specs.Prelude.{◌≡◌};
ghost use Rattle.value.specs.Codes.{code_of, meaning_of};

use std::error::Error;
use std::fmt;

/// The reasons, named after PostgreSQL's conditions (PostgreSQL: Error Codes), with the codes of this project's profile.
#[derive(Clone, Copy, Debug, PartialEq, Eq)]
pub enum Refusal {
    /// No such session (08003).
    ConnectionDoesNotExist,
    /// Not supported yet (0A000).
    FeatureNotSupported,
    /// A grant that would make a role belong to itself (0LP01).
    InvalidGrantOperation,
    /// No such prepared statement (26000).
    InvalidSqlStatementName,
    /// No such cursor (34000).
    InvalidCursorName,
    /// The actor may not do this (42501).
    InsufficientPrivilege,
    /// No text of the grammar (42601).
    SyntaxError,
    /// A column of that name is there already (42701).
    DuplicateColumn,
    /// A name that several columns have (42702).
    AmbiguousColumn,
    /// No such column (42703).
    UndefinedColumn,
    /// No such role or policy (42704).
    UndefinedObject,
    /// A role, a policy or an index of a column is there already (42710).
    DuplicateObject,
    /// An alias that an earlier entry of FROM has (42712).
    DuplicateAlias,
    /// An aggregate where none may be, or a column that is not grouped (42803).
    GroupingError,
    /// A value of the wrong type (42804).
    DatatypeMismatch,
    /// No such table or alias (42P01).
    UndefinedTable,
    /// A cursor of that name is there already (42P03).
    DuplicateCursor,
    /// A prepared statement of that name is there already (42P05).
    DuplicatePreparedStatement,
    /// A table or an index of that name is there already (42P07).
    DuplicateTable,
    /// A position of no output column (42P10).
    InvalidColumnReference,
    /// A policy whose expression can fail (42P17).
    InvalidObjectDefinition,
    /// Memory ran out (53200).
    OutOfMemory,
    /// A limit is passed (54000).
    ProgramLimitExceeded,
}

impl Refusal {
    /// The code, of five characters.
    pub fn code(self) -> &'static str
        ensures { result.now ≡ code_of self }
    {
        match self {
            Refusal::ConnectionDoesNotExist => "08003",
            Refusal::FeatureNotSupported => "0A000",
            Refusal::InvalidGrantOperation => "0LP01",
            Refusal::InvalidSqlStatementName => "26000",
            Refusal::InvalidCursorName => "34000",
            Refusal::InsufficientPrivilege => "42501",
            Refusal::SyntaxError => "42601",
            Refusal::DuplicateColumn => "42701",
            Refusal::AmbiguousColumn => "42702",
            Refusal::UndefinedColumn => "42703",
            Refusal::UndefinedObject => "42704",
            Refusal::DuplicateObject => "42710",
            Refusal::DuplicateAlias => "42712",
            Refusal::GroupingError => "42803",
            Refusal::DatatypeMismatch => "42804",
            Refusal::UndefinedTable => "42P01",
            Refusal::DuplicateCursor => "42P03",
            Refusal::DuplicatePreparedStatement => "42P05",
            Refusal::DuplicateTable => "42P07",
            Refusal::InvalidColumnReference => "42P10",
            Refusal::InvalidObjectDefinition => "42P17",
            Refusal::OutOfMemory => "53200",
            Refusal::ProgramLimitExceeded => "54000",
        }
    }

    /// The meaning of the code, in words.
    pub fn meaning(self) -> &'static str
        ensures { result.now ≡ meaning_of self }
    {
        match self {
            Refusal::ConnectionDoesNotExist => "no such session",
            Refusal::FeatureNotSupported => "this LEFT JOIN is not supported",
            Refusal::InvalidGrantOperation => "the grant would make a role belong to itself",
            Refusal::InvalidSqlStatementName => "no prepared statement has this name",
            Refusal::InvalidCursorName => "no cursor has this name",
            Refusal::InsufficientPrivilege =>
                "the role lacks the privilege or does not own the table",
            Refusal::SyntaxError => "syntax error: the text cannot go on like this from here",
            Refusal::DuplicateColumn => "the table has two columns of this name",
            Refusal::AmbiguousColumn => "several columns have this name",
            Refusal::UndefinedColumn => "no column of this name is in reach here",
            Refusal::UndefinedObject => "no role or policy has this name",
            Refusal::DuplicateObject => "the role, the policy or the index is there already",
            Refusal::DuplicateAlias =>
                "an earlier entry of FROM has this name; give one of them an alias",
            Refusal::GroupingError => {
                "an aggregate may not be here, or the column is not in GROUP BY and under no aggregate"
            }
            Refusal::DatatypeMismatch => "the value has the wrong type",
            Refusal::UndefinedTable => "no table, or no entry of FROM, has this name",
            Refusal::DuplicateCursor => "a cursor has this name already",
            Refusal::DuplicatePreparedStatement => "a prepared statement has this name already",
            Refusal::DuplicateTable => "a table has this name already",
            Refusal::InvalidColumnReference => "the answer has no column of this number",
            Refusal::InvalidObjectDefinition => "the condition of a policy may not be able to fail",
            Refusal::OutOfMemory => "out of memory",
            Refusal::ProgramLimitExceeded =>
                "the text is too long or too deeply nested, or the schema has too many objects",
        }
    }
}

impl fmt::Display for Refusal {
    ghost use Rattle.std.specs.Prelude.{Some};

    ghost output = { λ code. Some (meaning_of code) };

    fn fmt<W: fmt::Write>(&self, f: &mut fmt::Formatter<W>) -> fmt::Result {
        f.write_str(self.meaning())
    }
}

impl Error for Refusal {}
