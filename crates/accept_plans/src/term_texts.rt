//! Terms written as texts: R and G with the index of their entry, a filter's condition in brackets before what it is on, a
//! join in parentheses, a left join with its ON in brackets after +, E with the indices of its entries.

use expr::MovableExpr;
use fixtures::{Printer, show_bound};
use row_terms::Term;
use std::alloc::{AllocError, Global};

fn show_entries(entries: &[usize], out: &mut Printer) -> Result<(), AllocError> {
    for entry in entries {
        write!(out.text, "{entry}")?;
    }
    Ok(())
}

/// Writes a term.
pub fn show_term(term: &Term<Global>, out: &mut Printer) -> Result<(), AllocError> {
    match term {
        Term::Raw { entry } => write!(out.text, "R{entry}"),
        Term::Guarded { entry, input } => {
            write!(out.text, "G{entry} ")?;
            show_term(input, out)
        }
        Term::Filtered { condition, input } => {
            out.word("[")?;
            show_bound(condition.expression(), out)?;
            out.word("] ")?;
            show_term(input, out)
        }
        Term::Joined { left, right } => {
            out.word("(")?;
            show_term(left, out)?;
            out.word(" * ")?;
            show_term(right, out)?;
            out.word(")")
        }
        Term::LeftJoined { on, left, right } => {
            out.word("(")?;
            show_term(left, out)?;
            out.word(" + [")?;
            show_bound(on.expression(), out)?;
            out.word("] ")?;
            show_term(right, out)?;
            out.word(")")
        }
        Term::Empty { entries } => {
            out.word("E")?;
            show_entries(entries.as_slice(), out)
        }
    }
}

/// Writes conditions, with a comma between two.
pub fn show_conditions(
    conditions: &[MovableExpr<Global>],
    out: &mut Printer,
) -> Result<(), AllocError> {
    for (i, condition) in conditions.iter().enumerate() {
        out.comma(i)?;
        show_bound(condition.expression(), out)?;
    }
    Ok(())
}
