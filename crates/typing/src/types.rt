//! The types of expressions.

ghost use Rattle.std.specs.Prelude.{◌≡◌, ◌∷◌, map, option_map, slice_get};
ghost use Rattle.value.specs.Datum.{datum};
ghost use Rattle.row_ast.specs.View.{expr_of, exprs, arms as arms_of};
ghost use Rattle.scope.specs.View.{entry_of, entries_of};
ghost use Rattle.typing.specs.Typing as spec;

use crate::offsets::both;
use expr::ColumnId;
use memory::Heap;
use row_ast::{Arm, Expr};
use scope::{BindError, Entry, Scope, find_column};
use value::{Aggregate, ColType, Value};

/// A type, or none: that of NULL, which fits every type.
pub type TypeOf = Option<ColType>;

/// A type, or the least offset of a type error.
pub type Typed = Result<TypeOf, u32>;

fn is_type(a: ColType, b: ColType) -> bool
    ensures { result ≡ spec.is_type a b }
{
    match a {
        ColType::Bigint => b == ColType::Bigint,
        ColType::Text => b == ColType::Text,
        ColType::Boolean => b == ColType::Boolean,
    }
}

fn fits(to: ColType, from: TypeOf) -> bool
    ensures { result ≡ spec.fits to from }
{
    match from {
        None => true,
        Some(from) => is_type(from, to),
    }
}

// The one type that both fit, if there is one.
fn common(a: TypeOf, b: TypeOf) -> Option<TypeOf>
    ensures { result ≡ spec.common a b }
{
    let Some(x) = a else {
        return Some(b);
    };
    let Some(y) = b else {
        return Some(a);
    };
    if is_type(x, y) { Some(a) } else { None }
}

// The same of types that were found, if both were.
fn common_of(a: Option<TypeOf>, b: Option<TypeOf>) -> Option<TypeOf>
    ensures { result ≡ spec.common_of a b }
{
    let Some(a) = a else {
        return None;
    };
    let Some(b) = b else {
        return None;
    };
    common(a, b)
}

fn can_cast(to: ColType, from: TypeOf) -> bool
    ensures { result ≡ spec.can_cast to from }
{
    let Some(from) = from else {
        return true;
    };
    match to {
        ColType::Bigint | ColType::Text => match from {
            ColType::Bigint | ColType::Text => true,
            ColType::Boolean => false,
        },
        ColType::Boolean => match from {
            ColType::Bigint | ColType::Text => false,
            ColType::Boolean => true,
        },
    }
}

// True where min and max take the type.
fn is_ordered(of: TypeOf) -> bool
    ensures { result ≡ spec.is_ordered of }
{
    match of {
        None | Some(ColType::Bigint) | Some(ColType::Text) => true,
        Some(ColType::Boolean) => false,
    }
}

fn type_of<A: Heap>(value: &Value<A>) -> TypeOf
    ensures { result ≡ spec.type_of (datum value.now) }
{
    match value {
        Value::Null => None,
        Value::Int(_) => Some(ColType::Bigint),
        Value::Text(_) => Some(ColType::Text),
        Value::Bool(_) => Some(ColType::Boolean),
    }
}

// The one type that a type and those of values fit, if there is one.
fn common_of_all<A: Heap>(first: TypeOf, values: &[Value<A>]) -> Option<TypeOf>
    ensures { result ≡ spec.common_of_all (first ∷ map spec.type_of (map datum values.now)) }
{
    let mut known = Some(first);
    for value in values {
        known = common_of(known, Some(type_of(value)));
    }
    known
}

fn type_at<A: Heap>(entry: &Entry<'_, A>, column: usize) -> TypeOf
    ensures { result ≡ option_map (λ c. c.data_type) (slice_get (entry_of entry.now).table.columns column) }
{
    match entry.table.columns().get(column) {
        None => None,
        Some(column) => Some(column.data_type),
    }
}

fn column_type<A: Heap>(entries: &[Entry<'_, A>], id: ColumnId) -> TypeOf
    ensures { result ≡ spec.column_type (entries_of entries.now) id }
{
    match entries.get(id.entry) {
        None => None,
        Some(entry) => type_at(entry, id.column),
    }
}

fn found_type<A: Heap>(entries: &[Entry<'_, A>], found: Result<ColumnId, BindError>) -> TypeOf
    ensures { result ≡ spec.found_type (entries_of entries.now) found }
{
    match found {
        Ok(id) => column_type(entries, id),
        Err(_) => None,
    }
}

fn type_if(offset: u32, holds: bool, of: TypeOf) -> Typed
    ensures { result ≡ spec.type_if offset holds of }
{
    if holds { Ok(of) } else { Err(offset) }
}

fn truth_if_common(offset: u32, common: Option<TypeOf>) -> Typed
    ensures { result ≡ spec.truth_if_common offset common }
{
    match common {
        None => Err(offset),
        Some(_) => Ok(Some(ColType::Boolean)),
    }
}

fn aggregate_type(offset: u32, aggregate: Aggregate, argument: TypeOf) -> Typed
    ensures { result ≡ spec.aggregate_type offset aggregate argument }
{
    match aggregate {
        Aggregate::Count => Ok(Some(ColType::Bigint)),
        Aggregate::Sum => type_if(
            offset,
            fits(ColType::Bigint, argument),
            Some(ColType::Bigint),
        ),
        Aggregate::Min => type_if(offset, is_ordered(argument), argument),
        Aggregate::Max => type_if(offset, is_ordered(argument), argument),
    }
}

fn negation_type(offset: u32, operand: Typed) -> Typed
    ensures { result ≡ spec.negation_type offset operand }
{
    let of = operand?;
    type_if(offset, fits(ColType::Bigint, of), Some(ColType::Bigint))
}

fn arithmetic_type(offset: u32, a: Typed, b: Typed) -> Typed
    ensures { result ≡ spec.arithmetic_type offset a b }
{
    let (a, b) = both(a, b)?;
    let holds = fits(ColType::Bigint, a) && fits(ColType::Bigint, b);
    type_if(offset, holds, Some(ColType::Bigint))
}

fn comparison_type(offset: u32, a: Typed, b: Typed) -> Typed
    ensures { result ≡ spec.comparison_type offset a b }
{
    let (a, b) = both(a, b)?;
    truth_if_common(offset, common(a, b))
}

fn membership_type<A: Heap>(offset: u32, operand: Typed, values: &[Value<A>]) -> Typed
    ensures { result ≡ spec.membership_type offset operand (map datum values.now) }
{
    let of = operand?;
    truth_if_common(offset, common_of_all(of, values))
}

fn null_check_type(operand: Typed) -> Typed
    ensures { result ≡ spec.null_check_type operand }
{
    let _of = operand?;
    Ok(Some(ColType::Boolean))
}

fn not_type(offset: u32, operand: Typed) -> Typed
    ensures { result ≡ spec.not_type offset operand }
{
    let of = operand?;
    type_if(offset, fits(ColType::Boolean, of), Some(ColType::Boolean))
}

fn cast_type(offset: u32, to: ColType, operand: Typed) -> Typed
    ensures { result ≡ spec.cast_type offset to operand }
{
    let of = operand?;
    type_if(offset, can_cast(to, of), Some(to))
}

fn call_type(offset: u32, aggregate: Aggregate, argument: Typed) -> Typed
    ensures { result ≡ spec.call_type offset aggregate argument }
{
    let of = argument?;
    aggregate_type(offset, aggregate, of)
}

fn common_type(a: Typed, b: Typed) -> Result<Option<TypeOf>, u32>
    ensures { result ≡ spec.common_type a b }
{
    let (a, b) = both(a, b)?;
    Ok(common(a, b))
}

fn between_type(offset: u32, a: Typed, b: Typed, c: Typed) -> Typed
    ensures { result ≡ spec.between_type offset a b c }
{
    let (known, c) = both(common_type(a, b), c)?;
    truth_if_common(offset, common_of(known, Some(c)))
}

// True where it is a condition.
fn is_condition(member: Typed) -> Result<bool, u32>
    ensures { result ≡ spec.is_condition member }
{
    let of = member?;
    Ok(fits(ColType::Boolean, of))
}

fn both_hold(a: Result<bool, u32>, b: Result<bool, u32>) -> Result<bool, u32>
    ensures { result ≡ spec.both_hold a b }
{
    let (a, b) = both(a, b)?;
    Ok(a && b)
}

fn conditions_type(offset: u32, known: Result<bool, u32>) -> Typed
    ensures { result ≡ spec.conditions_type offset known }
{
    let holds = known?;
    type_if(offset, holds, Some(ColType::Boolean))
}

// True where each WHEN is a condition, and the one type of the results; or the least offset of a type error.
type Arms = Result<(bool, Option<TypeOf>), u32>;

fn arm_type(when: Typed, then: Typed) -> Arms
    ensures { result ≡ spec.arm_type when then }
{
    let (when, then) = both(when, then)?;
    Ok((fits(ColType::Boolean, when), Some(then)))
}

fn both_arms(a: Arms, b: Arms) -> Arms
    ensures { result ≡ spec.both_arms a b }
{
    let ((holds, common), (more_hold, others)) = both(a, b)?;
    Ok((holds && more_hold, common_of(common, others)))
}

fn case_type(offset: u32, arms: Arms, otherwise: Typed) -> Typed
    ensures { result ≡ spec.case_type offset arms otherwise }
{
    let ((holds, common), otherwise) = both(arms, otherwise)?;
    if !holds {
        return Err(offset);
    }
    match common_of(common, Some(otherwise)) {
        None => Err(offset),
        Some(of) => Ok(of),
    }
}

/// The type of an expression, or the least offset of an operation that is wrong although its operands are well typed.
#[cycle(typed)]
pub fn typed<A: Heap>(entries: &[Entry<'_, A>], scope: Scope, expression: &Expr<A>) -> Typed
    ensures { result ≡ spec.typed (entries_of entries.now) scope (expr_of expression.now) }
{
    match expression {
        Expr::Column(column) => Ok(found_type(entries, find_column(entries, scope, column))),
        Expr::Literal(value) => Ok(type_of(value)),
        Expr::CurrentUser => Ok(Some(ColType::Text)),
        Expr::Negate { offset, operand } => {
            negation_type(*offset, typed(entries, scope, operand))
        }
        Expr::Arithmetic {
            offset,
            left,
            right,
            ..
        } => {
            let a = typed(entries, scope, left);
            arithmetic_type(*offset, a, typed(entries, scope, right))
        }
        Expr::Comparison {
            offset,
            left,
            right,
            ..
        } => {
            let a = typed(entries, scope, left);
            comparison_type(*offset, a, typed(entries, scope, right))
        }
        Expr::Between {
            offset,
            operand,
            low,
            high,
            ..
        } => {
            let operand = typed(entries, scope, operand);
            let low = typed(entries, scope, low);
            let high = typed(entries, scope, high);
            between_type(*offset, operand, low, high)
        }
        Expr::In {
            offset,
            values,
            operand,
            ..
        } => {
            let of = typed(entries, scope, operand);
            membership_type(*offset, of, values.as_slice())
        }
        Expr::IsNull { operand, .. } => null_check_type(typed(entries, scope, operand)),
        Expr::Not { offset, operand } => not_type(*offset, typed(entries, scope, operand)),
        Expr::And { offset, members } => {
            conditions_type(*offset, typed_members(entries, scope, members))
        }
        Expr::Or { offset, members } => {
            conditions_type(*offset, typed_members(entries, scope, members))
        }
        Expr::Cast {
            offset,
            to,
            operand,
        } => { cast_type(*offset, *to, typed(entries, scope, operand)) }
        Expr::Case {
            offset,
            arms,
            otherwise,
        } => {
            let known = typed_arms(entries, scope, arms);
            match otherwise {
                Some(value) => case_type(*offset, known, typed(entries, scope, value)),
                None => case_type(*offset, known, Ok(None)),
            }
        }
        Expr::CountStar { .. } => Ok(Some(ColType::Bigint)),
        Expr::Call {
            aggregate,
            offset,
            argument,
        } => { call_type(*offset, *aggregate, typed(entries, scope, argument)) }
    }
}

// True where each member is a condition.
#[cycle(typed)]
fn typed_members<A: Heap>(
    entries: &[Entry<'_, A>],
    scope: Scope,
    members: &[Expr<A>],
) -> Result<bool, u32>
    ensures { result ≡ spec.typed_members (entries_of entries.now) scope (exprs members.now) }
{
    let mut known = Ok(true);
    for member in members {
        known = both_hold(known, is_condition(typed(entries, scope, member)));
    }
    known
}

// The same of each WHEN, and the one type of the results.
#[cycle(typed)]
fn typed_arms<A: Heap>(entries: &[Entry<'_, A>], scope: Scope, arms: &[Arm<A>]) -> Arms
    ensures { result ≡ spec.typed_arms (entries_of entries.now) scope (arms_of arms.now) }
{
    let mut known = Ok((true, Some(None)));
    for arm in arms {
        let when = typed(entries, scope, &arm.when);
        known = both_arms(known, arm_type(when, typed(entries, scope, &arm.result)));
    }
    known
}

/// The type of an expression that is to be a condition and starts at an offset.
pub fn typed_condition<A: Heap>(
    entries: &[Entry<'_, A>],
    scope: Scope,
    offset: u32,
    expression: &Expr<A>,
) -> Typed
    ensures { result ≡ spec.typed_condition (entries_of entries.now) scope offset (expr_of expression.now) }
{
    let of = typed(entries, scope, expression)?;
    type_if(offset, fits(ColType::Boolean, of), of)
}
