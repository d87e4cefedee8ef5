//! Equality of a text column with texts.

ghost use Rattle.std.specs.Prelude.{◌≡◌, ◌≤◌, ◌&&◌, ℕ, List, length, map, replicate, IfOk, IfSome};
ghost use Rattle.std.specs.Option.{is_some};
ghost use Rattle.value.specs.Datum as value;
ghost use Rattle.value.specs.Datum.{datum};
ghost use Rattle.value.specs.declared.operators.Comparison.TheVariants.{Equal};
ghost use Rattle.eval.specs.Operators.{in_of};
ghost use Rattle.expr.specs.Bound as bound;
ghost use Rattle.expr.specs.View.{bound_expr_of};
ghost use Rattle.columns.specs.Rows.{types_of};
ghost use Rattle.tables.specs.declared.TheConstants.{MAX_ROWS};
ghost use Rattle.lane_filters.specs.ByLanes.{are_texts, have_one_text, is_one_text, is_text_column, is_text_value, tests_text};
ghost use Rattle.lane_filters.specs.Outcomes.{AreTruths, AreValues};

use crate::leaves::negated_if;
use crate::sizes::column_count;
use crate::truths::Truths;
use columns::{ColumnData, Texts};
use expr::BoundExpr;
use memory::Heap;
use std::alloc::AllocError;
use tables::Table;
use value::{Comparison, Value};

// The text column that an expression is, if it is one.
fn text_column<'t, A: Heap>(table: &'t Table<A>, expression: &BoundExpr<A>) -> Option<&'t Texts<A>>
    ensures exact { is_some result ≡ is_text_column (types_of table.now.columns) (bound_expr_of expression.now) }
    ensures values { (role : List ℕ) → IfSome result (λ c. AreValues role table.now.rows (bound_expr_of expression.now) c.now) }
    ensures few { IfSome result (λ c. length c.now ≤ MAX_ROWS) }
{
    let BoundExpr::Column(id) = expression else {
        return None;
    };
    let _few = table.rows();
    if id.column >= column_count(table) {
        return None;
    }
    match table.data(id.column as u64) {
        ColumnData::Texts(values) => Some(values),
        _ => None,
    }
}

// The text of a value, if it is one.
fn text_of<A: Heap>(literal: &Value<A>) -> Option<&str>
    ensures exact { is_some result ≡ is_text_value (datum literal.now) }
    ensures text { IfSome result (λ t. datum literal.now ≡ value.text t.now) }
{
    match literal {
        Value::Text(text) => Some(text.as_str()),
        _ => None,
    }
}

// The text that an expression is on each row, if it is a literal or CURRENT_USER.
fn one_text<'e, A: Heap>(role: &'e str, expression: &'e BoundExpr<A>) -> Option<&'e str>
    ensures exact { is_some result ≡ is_one_text (bound_expr_of expression.now) }
    ensures values { (rows : List value.Row) → IfSome result (λ t. AreValues role.now rows (bound_expr_of expression.now) (replicate (length rows) (value.text t.now))) }
{
    match expression {
        BoundExpr::CurrentUser => Some(role),
        BoundExpr::Literal(literal) => text_of(literal),
        _ => None,
    }
}

// The equality of a text column with one text, if the first is a text column and the second one text.
fn column_is_text<A: Heap>(
    alloc: A,
    table: &Table<A>,
    role: &str,
    column: &BoundExpr<A>,
    text: &BoundExpr<A>,
) -> Result<Option<Truths<A>>, AllocError>
    ensures exact { IfOk result (λ o. is_some o ≡ (is_text_column (types_of table.now.columns) (bound_expr_of column.now) && is_one_text (bound_expr_of text.now))) }
    ensures truths { (offset : ℕ) → IfOk result (λ o. IfSome o (λ t. AreTruths role.now table.now.rows (bound.Comparison Equal offset (bound_expr_of column.now) (bound_expr_of text.now)) t)) }
{
    let Some(column) = text_column(table, column) else {
        return Ok(None);
    };
    let Some(text) = one_text(role, text) else {
        return Ok(None);
    };
    Ok(Some(Truths::of_equal(alloc, column, text)?))
}

// The equality of a text column with one text, on either side.
fn text_equality<A: Heap>(
    alloc: A,
    table: &Table<A>,
    role: &str,
    left: &BoundExpr<A>,
    right: &BoundExpr<A>,
) -> Result<Option<Truths<A>>, AllocError>
    ensures exact { IfOk result (λ o. is_some o ≡ have_one_text (types_of table.now.columns) (bound_expr_of left.now) (bound_expr_of right.now)) }
    ensures truths { (offset : ℕ) → IfOk result (λ o. IfSome o (λ t. AreTruths role.now table.now.rows (bound.Comparison Equal offset (bound_expr_of left.now) (bound_expr_of right.now)) t)) }
{
    match column_is_text(alloc, table, role, left, right)? {
        Some(truths) => Ok(Some(truths)),
        None => column_is_text(alloc, table, role, right, left),
    }
}

/// The equality of a text column with one text, or its negation, if the comparison is one.
pub(crate) fn text_test<A: Heap>(
    alloc: A,
    table: &Table<A>,
    role: &str,
    op: Comparison,
    left: &BoundExpr<A>,
    right: &BoundExpr<A>,
) -> Result<Option<Truths<A>>, AllocError>
    ensures exact { IfOk result (λ o. is_some o ≡ tests_text (types_of table.now.columns) op (bound_expr_of left.now) (bound_expr_of right.now)) }
    ensures truths { (offset : ℕ) → IfOk result (λ o. IfSome o (λ t. AreTruths role.now table.now.rows (bound.Comparison op offset (bound_expr_of left.now) (bound_expr_of right.now)) t)) }
{
    match op {
        Comparison::Equal => text_equality(alloc, table, role, left, right),
        Comparison::NotEqual => match text_equality(alloc, table, role, left, right)? {
            Some(mut truths) => {
                truths.negate();
                Ok(Some(truths))
            }
            None => Ok(None),
        },
        _ => Ok(None),
    }
}

// Whether each value of a column is one of the texts, if all values of the list are texts.
fn one_of_texts<A: Heap>(
    alloc: A,
    column: &Texts<A>,
    values: &[Value<A>],
) -> Result<Option<Truths<A>>, AllocError>
    requires { length column.now ≤ MAX_ROWS }
    ensures exact { IfOk result (λ o. is_some o ≡ are_texts (map datum values.now)) }
    ensures truths { IfOk result (λ o. IfSome o (λ t. t ≡ map (λ d. in_of d (map datum values.now)) column.now)) }
{
    let mut known = Truths::all(alloc, column.len(), false)?;
    let mut left = values.len();
    while left > 0 {
        left -= 1;
        let Some(text) = text_of(&values[left]) else {
            return Ok(None);
        };
        let mut truths = Truths::of_equal(alloc, column, text)?;
        truths.or(&known);
        known = truths;
    }
    Ok(Some(known))
}

/// IN, if the operand is a text column and all values are texts.
pub(crate) fn text_membership<A: Heap>(
    alloc: A,
    table: &Table<A>,
    negated: bool,
    values: &[Value<A>],
    operand: &BoundExpr<A>,
) -> Result<Option<Truths<A>>, AllocError>
    ensures exact { IfOk result (λ o. is_some o ≡ (is_text_column (types_of table.now.columns) (bound_expr_of operand.now) && are_texts (map datum values.now))) }
    ensures truths { (role : List ℕ) (offset : ℕ) → IfOk result (λ o. IfSome o (λ t. AreTruths role table.now.rows (bound.In negated offset (map datum values.now) (bound_expr_of operand.now)) t)) }
{
    let Some(column) = text_column(table, operand) else {
        return Ok(None);
    };
    match one_of_texts(alloc, column, values)? {
        Some(truths) => Ok(Some(negated_if(negated, truths))),
        None => Ok(None),
    }
}
