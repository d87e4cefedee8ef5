//! The texts of expressions, each at the end of a text.

ghost use Rattle.std.specs.Prelude.{◌≡◌, ◌++◌, OnOk, map, codes};
ghost use Rattle.value.specs.Datum.{datum};
ghost use Rattle.row_ast.specs.View.{arms as arms_of, expr_of, exprs};
ghost use Rattle.expr_texts.specs.ExprTexts as spec;

use crate::writing::{not_of, push_column, push_literal, push_literals, sign_of};
use memory::{Heap, push_str};
use row_ast::{Arm, Expr};
use std::alloc::AllocError;
use value::{Comparison, Value};

// The sign of a comparison between spaces.
fn push_sign<A: Heap>(out: &mut Vec<u8, A>, operator: Comparison) -> Result<(), AllocError>
    ensures { OnOk result (out.new.items ≡ out.old.items ++ (codes " " ++ spec.sign_text operator ++ codes " ")) }
{
    push_str(out, " ")?;
    push_str(out, sign_of(operator))?;
    push_str(out, " ")
}

// NOT where it is written, and BETWEEN.
fn push_between<A: Heap>(out: &mut Vec<u8, A>, negated: bool) -> Result<(), AllocError>
    ensures { OnOk result (out.new.items ≡ out.old.items ++ (spec.not_text negated ++ codes " BETWEEN ")) }
{
    push_str(out, not_of(negated))?;
    push_str(out, " BETWEEN ")
}

// NOT where it is written, IN and the values.
fn push_in<A: Heap>(
    out: &mut Vec<u8, A>,
    negated: bool,
    values: &[Value<A>],
) -> Result<(), AllocError>
    ensures { OnOk result (out.new.items ≡ out.old.items ++ (spec.not_text negated ++ codes " IN (" ++ spec.literals_text (map datum values.now) ++ codes "))")) }
{
    push_str(out, not_of(negated))?;
    push_str(out, " IN (")?;
    push_literals(out, values)?;
    push_str(out, "))")
}

// IS NULL, or IS NOT NULL.
fn push_is_null<A: Heap>(out: &mut Vec<u8, A>, negated: bool) -> Result<(), AllocError>
    ensures { OnOk result (out.new.items ≡ out.old.items ++ (codes " IS" ++ spec.not_text negated ++ codes " NULL)")) }
{
    push_str(out, " IS")?;
    push_str(out, not_of(negated))?;
    push_str(out, " NULL)")
}

/// The text of an expression. Arithmetic, casts and aggregates, which no filter of a plan has, have none.
#[cycle(write)]
pub fn push_expr<A: Heap>(out: &mut Vec<u8, A>, expression: &Expr<A>) -> Result<(), AllocError>
    ensures { OnOk result (out.new.items ≡ out.old.items ++ spec.expr_text (expr_of expression.now)) }
{
    match expression {
        Expr::Column(column) => push_column(out, column),
        Expr::Literal(value) => push_literal(out, value),
        Expr::CurrentUser => push_str(out, "CURRENT_USER"),
        Expr::Comparison {
            operator,
            left,
            right,
            ..
        } => {
            push_str(out, "(")?;
            push_expr(out, left)?;
            push_sign(out, *operator)?;
            push_expr(out, right)?;
            push_str(out, ")")
        }
        Expr::Between {
            negated,
            operand,
            low,
            high,
            ..
        } => {
            push_str(out, "(")?;
            push_expr(out, operand)?;
            push_between(out, *negated)?;
            push_expr(out, low)?;
            push_str(out, " AND ")?;
            push_expr(out, high)?;
            push_str(out, ")")
        }
        Expr::In {
            negated,
            values,
            operand,
            ..
        } => {
            push_str(out, "(")?;
            push_expr(out, operand)?;
            push_in(out, *negated, values.as_slice())
        }
        Expr::IsNull {
            negated,
            operand,
            ..
        } => {
            push_str(out, "(")?;
            push_expr(out, operand)?;
            push_is_null(out, *negated)
        }
        Expr::Not { operand, .. } => {
            push_str(out, "(NOT ")?;
            push_expr(out, operand)?;
            push_str(out, ")")
        }
        Expr::And { members, .. } => {
            push_str(out, "(")?;
            push_members(out, " AND ", members)?;
            push_str(out, ")")
        }
        Expr::Or { members, .. } => {
            push_str(out, "(")?;
            push_members(out, " OR ", members)?;
            push_str(out, ")")
        }
        Expr::Case {
            arms,
            otherwise,
            ..
        } => {
            push_str(out, "(CASE")?;
            push_arms(out, arms)?;
            if let Some(value) = otherwise {
                push_str(out, " ELSE ")?;
                push_expr(out, value)?;
            }
            push_str(out, " END)")
        }
        Expr::Negate { .. }
        | Expr::Arithmetic { .. }
        | Expr::Cast { .. }
        | Expr::CountStar { .. }
        | Expr::Call { .. } => Ok(()),
    }
}

// The members of an AND or OR with its word between them.
#[cycle(write)]
fn push_members<A: Heap>(
    out: &mut Vec<u8, A>,
    word: &str,
    members: &[Expr<A>],
) -> Result<(), AllocError>
    ensures { OnOk result (out.new.items ≡ out.old.items ++ spec.members_text word.now (exprs members.now)) }
{
    match members {
        [first, others @ ..] => {
            push_expr(out, first)?;
            push_further(out, word, others)
        }
        [] => Ok(()),
    }
}

// The members after the first, each after the word.
#[cycle(write)]
fn push_further<A: Heap>(
    out: &mut Vec<u8, A>,
    word: &str,
    members: &[Expr<A>],
) -> Result<(), AllocError>
    ensures { OnOk result (out.new.items ≡ out.old.items ++ spec.further_text word.now (exprs members.now)) }
{
    for member in members {
        push_str(out, word)?;
        push_expr(out, member)?;
    }
    Ok(())
}

// The arms of a CASE.
#[cycle(write)]
fn push_arms<A: Heap>(out: &mut Vec<u8, A>, arms: &[Arm<A>]) -> Result<(), AllocError>
    ensures { OnOk result (out.new.items ≡ out.old.items ++ spec.arms_text (arms_of arms.now)) }
{
    for next in arms {
        push_str(out, " WHEN ")?;
        push_expr(out, &next.when)?;
        push_str(out, " THEN ")?;
        push_expr(out, &next.result)?;
    }
    Ok(())
}
