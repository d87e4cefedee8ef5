//! The diagnostics of a refusal or a denial.

ghost use Rattle.std.specs.Prelude.{◌≡◌, ◌++◌, IfOk, OnOk, option_map};
ghost use Rattle.replies.specs.View.{reply_of};
ghost use Rattle.diagnostics.specs.Diagnosis as spec;
ghost use Rattle.diagnostics.specs.Diagnosis.{denial_line, lacking};

use crate::caret::push_caret;
use crate::meanings::push_refusal;
use memory::{Heap, Text, push_str};
use replies::Reply;
use std::alloc::AllocError;

fn push_lacking<A: Heap>(
    lines: &mut Vec<u8, A>,
    column: &Option<Text<A>>,
    table: &str,
) -> Result<(), AllocError>
    ensures { OnOk result (lines.new.items ≡ lines.old.items ++ lacking column.now table.now) }
{
    match column {
        Some(column) => {
            push_str(lines, "column ")?;
            push_str(lines, column.as_str())?;
            push_str(lines, " of table ")?;
            push_str(lines, table)?;
            push_str(lines, " or on the table")
        }
        None => {
            push_str(lines, "table ")?;
            push_str(lines, table)?;
            push_str(lines, " or on a column of it")
        }
    }
}

fn push_denial<A: Heap>(
    lines: &mut Vec<u8, A>,
    column: &Option<Text<A>>,
    table: &str,
) -> Result<(), AllocError>
    ensures { OnOk result (lines.new.items ≡ lines.old.items ++ denial_line column.now table.now) }
{
    push_str(lines, "42501: the role needs SELECT on ")?;
    push_lacking(lines, column, table)?;
    push_str(
        lines,
        ", granted to it, to a role that it belongs to, or to PUBLIC\n",
    )
}

/// The diagnostics of the refusal or denial of a text: its meaning in a line, and where it has an offset the line of
/// the text and a caret below the offset; nothing for rows and for a fault.
pub fn hint<A: Heap>(alloc: A, text: &str, refusal: &Reply<A>) -> Result<Vec<u8, A>, AllocError>
    ensures { IfOk result (λ lines. lines.items ≡ spec.hint text.now (reply_of refusal.now)) }
{
    let mut lines = Vec::new(alloc);
    match refusal {
        Reply::Refused { code, offset } => {
            push_refusal(&mut lines, *code)?;
            if let Some(offset) = offset {
                push_caret(alloc, &mut lines, text.as_bytes(), *offset as usize)?;
            }
        }
        Reply::Denied { column, table } => push_denial(&mut lines, column, table.as_str())?,
        Reply::Faulted { .. } | Reply::Rows { .. } => {}
    }
    Ok(lines)
}
