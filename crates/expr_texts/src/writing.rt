//! The texts of the parts of expressions, each at the end of a text.

ghost use Rattle.std.specs.Prelude.{◌≡◌, ◌++◌, OnOk, map};
ghost use Rattle.value.specs.Datum.{datum};
ghost use Rattle.row_tokens.specs.Tokens.{quoted};
ghost use Rattle.expr_texts.specs.ExprTexts.{column_text, literal_text, literals_text, further_literals, sign_text, not_text};

use itoa::Buffer;
use memory::{Heap, push_str};
use row_ast::ColumnRef;
use std::alloc::AllocError;
use value::{Comparison, Value};

// A text literal: its quotes doubled, between quotes.
fn push_quoted<A: Heap>(out: &mut Vec<u8, A>, text: &[u8]) -> Result<(), AllocError>
    ensures { OnOk result (out.new.items ≡ out.old.items ++ quoted text.now) }
{
    out.push(b'\'')?;
    for b in text {
        if *b == b'\'' {
            out.push(b'\'')?;
        }
        out.push(*b)?;
    }
    out.push(b'\'')?;
    Ok(())
}

/// A literal.
pub fn push_literal<A: Heap>(out: &mut Vec<u8, A>, value: &Value<A>) -> Result<(), AllocError>
    ensures { OnOk result (out.new.items ≡ out.old.items ++ literal_text (datum value.now)) }
{
    match value {
        Value::Null => push_str(out, "NULL"),
        Value::Int(n) => {
            let mut buffer = Buffer::new();
            push_str(out, buffer.format(*n))
        }
        Value::Text(text) => push_quoted(out, text.as_str().as_bytes()),
        Value::Bool(true) => push_str(out, "TRUE"),
        Value::Bool(false) => push_str(out, "FALSE"),
    }
}

// The literals after the first, each after a comma.
fn push_further_literals<A: Heap>(
    out: &mut Vec<u8, A>,
    values: &[Value<A>],
) -> Result<(), AllocError>
    ensures { OnOk result (out.new.items ≡ out.old.items ++ further_literals (map datum values.now)) }
{
    for value in values {
        push_str(out, ", ")?;
        push_literal(out, value)?;
    }
    Ok(())
}

/// Literals with commas between them.
pub fn push_literals<A: Heap>(out: &mut Vec<u8, A>, values: &[Value<A>]) -> Result<(), AllocError>
    ensures { OnOk result (out.new.items ≡ out.old.items ++ literals_text (map datum values.now)) }
{
    if let Some((first, others)) = values.split_first() {
        push_literal(out, first)?;
        push_further_literals(out, others)?;
    }
    Ok(())
}

/// A column with the alias of its entry.
pub fn push_column<A: Heap>(out: &mut Vec<u8, A>, column: &ColumnRef<A>) -> Result<(), AllocError>
    ensures { OnOk result (out.new.items ≡ out.old.items ++ column_text column.now.table column.now.name) }
{
    if let Some(table) = &column.table {
        push_str(out, table.as_str())?;
        push_str(out, ".")?;
    }
    push_str(out, column.name.as_str())
}

/// The sign of a comparison.
pub fn sign_of(operator: Comparison) -> &'static str
    ensures { result.now ≡ sign_text operator }
{
    match operator {
        Comparison::Equal => "=",
        Comparison::NotEqual => "<>",
        Comparison::Less => "<",
        Comparison::LessOrEqual => "<=",
        Comparison::Greater => ">",
        Comparison::GreaterOrEqual => ">=",
    }
}

/// NOT after a space, or nothing.
pub fn not_of(negated: bool) -> &'static str
    ensures { result.now ≡ not_text negated }
{
    if negated { " NOT" } else { "" }
}
