//! The types of bound expressions.

ghost use Rattle.std.specs.Prelude.{◌≡◌, option_map, slice_get};
ghost use Rattle.value.specs.Datum.{datum};
ghost use Rattle.expr.specs.View.{bound_arms, bound_expr_of};
ghost use Rattle.scope.specs.View.{entries_of, entry_of};
ghost use Rattle.typing.specs.Typing as typing;
ghost use Rattle.descriptions.specs.Types as spec;

use expr::{BoundArm, BoundExpr, ColumnId};
use memory::Heap;
use scope::Entry;
use value::{Aggregate, ColType, Value};

/// A type, or none: that of NULL.
pub(crate) type TypeOf = Option<ColType>;

fn type_of<A: Heap>(value: &Value<A>) -> TypeOf
    ensures { result ≡ typing.type_of (datum value.now) }
{
    match value {
        Value::Null => None,
        Value::Int(_) => Some(ColType::Bigint),
        Value::Text(_) => Some(ColType::Text),
        Value::Bool(_) => Some(ColType::Boolean),
    }
}

fn type_at<A: Heap>(entry: &Entry<'_, A>, column: usize) -> TypeOf
    ensures { result ≡ option_map (λ c. c.data_type) (slice_get (entry_of entry.now).table.columns column) }
{
    match entry.table.columns().get(column) {
        None => None,
        Some(column) => Some(column.data_type),
    }
}

fn column_type<A: Heap>(entries: &[Entry<'_, A>], id: ColumnId) -> TypeOf
    ensures { result ≡ typing.column_type (entries_of entries.now) id }
{
    match entries.get(id.entry) {
        None => None,
        Some(entry) => type_at(entry, id.column),
    }
}

fn call_type(aggregate: Aggregate, argument: TypeOf) -> TypeOf
    ensures { result ≡ spec.call_type aggregate argument }
{
    match aggregate {
        Aggregate::Count | Aggregate::Sum => Some(ColType::Bigint),
        Aggregate::Min | Aggregate::Max => argument,
    }
}

// The first that is not that of NULL.
fn first_type(first: TypeOf, second: TypeOf) -> TypeOf
    ensures { result ≡ spec.first_type first second }
{
    match first {
        Some(_) => first,
        None => second,
    }
}

/// The type of an expression of which each operation is well typed.
#[cycle(bound_type)]
pub(crate) fn bound_type<A: Heap>(entries: &[Entry<'_, A>], expression: &BoundExpr<A>) -> TypeOf
    ensures { result ≡ spec.bound_type (entries_of entries.now) (bound_expr_of expression.now) }
{
    match expression {
        BoundExpr::Column(id) => column_type(entries, *id),
        BoundExpr::Literal(value) => type_of(value),
        BoundExpr::CurrentUser => Some(ColType::Text),
        BoundExpr::Negate { .. } | BoundExpr::Arithmetic { .. } | BoundExpr::CountStar { .. } => {
            Some(ColType::Bigint)
        }
        BoundExpr::Comparison { .. }
        | BoundExpr::Between { .. }
        | BoundExpr::In { .. }
        | BoundExpr::IsNull { .. }
        | BoundExpr::Not { .. }
        | BoundExpr::And { .. }
        | BoundExpr::Or { .. } => Some(ColType::Boolean),
        BoundExpr::Cast { to, .. } => Some(*to),
        BoundExpr::Case {
            arms,
            otherwise,
            ..
        } => {
            let known = arms_type(entries, arms);
            match otherwise {
                Some(value) => first_type(known, bound_type(entries, value)),
                None => first_type(known, None),
            }
        }
        BoundExpr::Call {
            aggregate,
            argument,
            ..
        } => call_type(*aggregate, bound_type(entries, argument)),
    }
}

// The type of the first result that is not NULL's.
#[cycle(bound_type)]
fn arms_type<A: Heap>(entries: &[Entry<'_, A>], arms: &[BoundArm<A>]) -> TypeOf
    ensures { result ≡ spec.arms_type (entries_of entries.now) (bound_arms arms.now) }
{
    let mut known = None;
    for arm in arms {
        known = first_type(known, bound_type(entries, &arm.result));
    }
    known
}
