//! The codes of refusals and faults, and their meaning.

ghost use Rattle.std.specs.Prelude.{◌≡◌, ◌++◌, IfOk, OnOk, flat_map};
ghost use Rattle.diagnostics.specs.Meanings as spec;
ghost use Rattle.diagnostics.specs.Meanings.{refusal_line, fault_line};

use memory::{Heap, push_str};
use std::alloc::AllocError;
use value::{FaultKind, Refusal};

/// Adds the line of a refusal.
pub(crate) fn push_refusal<A: Heap>(lines: &mut Vec<u8, A>, code: Refusal) -> Result<(), AllocError>
    ensures { OnOk result (lines.new.items ≡ lines.old.items ++ refusal_line code) }
{
    push_str(lines, code.code())?;
    push_str(lines, ": ")?;
    push_str(lines, code.meaning())?;
    push_str(lines, "\n")
}

fn push_fault<A: Heap>(lines: &mut Vec<u8, A>, kind: FaultKind) -> Result<(), AllocError>
    ensures { OnOk result (lines.new.items ≡ lines.old.items ++ fault_line kind) }
{
    push_str(lines, kind.code())?;
    push_str(lines, ": ")?;
    push_str(lines, kind.meaning())?;
    push_str(lines, "\n")
}

fn push_refusals<A: Heap>(lines: &mut Vec<u8, A>, codes: &[Refusal]) -> Result<(), AllocError>
    ensures { OnOk result (lines.new.items ≡ lines.old.items ++ flat_map refusal_line codes.now) }
{
    for code in codes {
        push_refusal(lines, *code)?;
    }
    Ok(())
}

fn push_faults<A: Heap>(lines: &mut Vec<u8, A>, kinds: &[FaultKind]) -> Result<(), AllocError>
    ensures { OnOk result (lines.new.items ≡ lines.old.items ++ flat_map fault_line kinds.now) }
{
    for kind in kinds {
        push_fault(lines, *kind)?;
    }
    Ok(())
}

/// Each code that a reply or a refused schema may have with its meaning, a line each, in the order of the codes.
pub fn codes_text<A: Heap>(alloc: A) -> Result<Vec<u8, A>, AllocError>
    ensures { IfOk result (λ text. text.items ≡ spec.codes_text) }
{
    let mut lines = Vec::new(alloc);
    push_refusals(&mut lines, &[Refusal::InvalidGrantOperation])?;
    push_faults(
        &mut lines,
        &[FaultKind::Range, FaultKind::Div0, FaultKind::BadText],
    )?;
    push_refusals(
        &mut lines,
        &[
            Refusal::InsufficientPrivilege,
            Refusal::SyntaxError,
            Refusal::DuplicateColumn,
            Refusal::AmbiguousColumn,
            Refusal::UndefinedColumn,
            Refusal::UndefinedObject,
            Refusal::DuplicateObject,
            Refusal::DuplicateAlias,
            Refusal::GroupingError,
            Refusal::DatatypeMismatch,
            Refusal::UndefinedTable,
            Refusal::DuplicateTable,
            Refusal::InvalidColumnReference,
            Refusal::InvalidObjectDefinition,
            Refusal::OutOfMemory,
            Refusal::ProgramLimitExceeded,
        ],
    )?;
    Ok(lines)
}
