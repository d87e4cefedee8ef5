//! The factors of conditions.

ghost use Rattle.std.specs.Prelude.{◌≡◌, ◌≤◌, ◌+◌, ◌-◌, ◌*◌, ◌/◌, ◌-ℤ◌, ◌<ℤ◌, List, Some, map};
ghost use Rattle.value.specs.Datum.{datum};
ghost use Rattle.expr.specs.Bound.{Literal};
ghost use Rattle.expr.specs.View.{bound_expr_of, bound_exprs};
ghost use Rattle.stats.specs.Factors as spec;
ghost use Rattle.stats.specs.Factors.{million};
ghost use Rattle.stats.specs.Statistics.{Stats as TableStats};
ghost use Rattle.stats.specs.View.{stats_of};

use crate::statistics::{Bounds, ColumnStats, Stats};
use expr::{BoundExpr, ColumnId};
use memory::Heap;
use value::{Comparison, Value};

const MILLION: u64 = 1_000_000;

// Of what no other rule names: a third.
const THIRD: u64 = 333_333;

// The factor of an equality with a column of so many distinct values.
fn one_of(distinct: u64) -> u64
    ensures value { result ≡ spec.one_of distinct }
    ensures parts { result ≤ million }
{
    if distinct == 0 {
        100_000
    } else {
        MILLION / distinct
    }
}

// How far one number is above another, or 0.
fn distance(low: i64, high: i64) -> u64
    ensures value { result ≡ spec.from_zero (high -ℤ low) }
    ensures apart { low <ℤ high → 1 ≤ result }
{
    if high <= low { 0 } else { high.abs_diff(low) }
}

// The part of the bounds that lies between two numbers.
fn part(bounds: Bounds, low: i64, high: i64) -> u64
    requires { bounds.least <ℤ bounds.greatest }
    ensures value { result ≡ spec.part bounds low high }
    ensures parts { result ≤ million }
{
    let whole = distance(bounds.least, bounds.greatest) as u128;
    let share = distance(low, high) as u128 * 1_000_000 / whole;
    share.min(1_000_000) as u64
}

// The statistics of a column of an entry.
fn stats_at<A: Heap>(statistics: &[&Stats<A>], id: ColumnId) -> ColumnStats
    ensures { result ≡ spec.stats_at (map (λ s. stats_of s.now) statistics.now) id }
{
    match statistics.get(id.entry) {
        Some(stats) => stats.column(id.column),
        None => Stats::<A>::unknown().column(id.column),
    }
}

/// The factor of a condition, in parts per million, by the statistics of each entry of FROM (Selinger et al. 1979, table 1:
/// selectivity factors). It takes no memory.
#[cycle(factor)]
pub fn factor<A: Heap>(statistics: &[&Stats<A>], condition: &BoundExpr<A>) -> u64
    ensures value { result ≡ spec.factor (map (λ s. stats_of s.now) statistics.now) (bound_expr_of condition.now) }
    ensures parts { result ≤ million }
{
    match condition {
        BoundExpr::Literal(value) => literal(value),
        BoundExpr::Comparison {
            operator,
            left,
            right,
            ..
        } => comparison(statistics, *operator, left, right),
        BoundExpr::Between {
            negated,
            operand,
            low,
            high,
            ..
        } => negated_if(*negated, range(statistics, operand, low, high)),
        BoundExpr::In {
            negated,
            values,
            operand,
            ..
        } => negated_if(
            *negated,
            membership(statistics, operand, values.len() as u64),
        ),
        BoundExpr::IsNull { negated, .. } => if *negated { 900_000 } else { 100_000 },
        BoundExpr::Not { operand, .. } => MILLION - factor(statistics, operand),
        BoundExpr::And { members, .. } => all_factor(statistics, members),
        BoundExpr::Or { members, .. } => any_factor(statistics, members),
        BoundExpr::Column(_)
        | BoundExpr::CurrentUser
        | BoundExpr::Negate { .. }
        | BoundExpr::Arithmetic { .. }
        | BoundExpr::Cast { .. }
        | BoundExpr::Case { .. }
        | BoundExpr::CountStar { .. }
        | BoundExpr::Call { .. } => THIRD,
    }
}

// That of a literal.
fn literal<A: Heap>(value: &Value<A>) -> u64
    ensures value { (of : List TableStats) → result ≡ spec.factor of (Literal (datum value.now)) }
    ensures parts { result ≤ million }
{
    match value {
        Value::Null => 0,
        Value::Bool(true) => MILLION,
        Value::Bool(false) => 0,
        _ => THIRD,
    }
}

// That of a condition, or of its negation.
fn negated_if(negated: bool, factor: u64) -> u64
    requires { factor ≤ million }
    ensures value { result ≡ spec.negated_if negated factor }
    ensures parts { result ≤ million }
{
    if negated { MILLION - factor } else { factor }
}

fn equality<A: Heap>(statistics: &[&Stats<A>], left: &BoundExpr<A>, right: &BoundExpr<A>) -> u64
    ensures value { result ≡ spec.equality (map (λ s. stats_of s.now) statistics.now) (bound_expr_of left.now) (bound_expr_of right.now) }
    ensures parts { result ≤ million }
{
    match (left, right) {
        (BoundExpr::Column(a), BoundExpr::Column(b)) => {
            let a = stats_at(statistics, *a).distinct;
            let b = stats_at(statistics, *b).distinct;
            one_of(a.max(b))
        }
        (BoundExpr::Column(a), BoundExpr::Literal(_) | BoundExpr::CurrentUser) => {
            one_of(stats_at(statistics, *a).distinct)
        }
        (BoundExpr::Literal(_) | BoundExpr::CurrentUser, BoundExpr::Column(a)) => {
            one_of(stats_at(statistics, *a).distinct)
        }
        _ => THIRD,
    }
}

fn comparison<A: Heap>(
    statistics: &[&Stats<A>],
    operator: Comparison,
    left: &BoundExpr<A>,
    right: &BoundExpr<A>,
) -> u64
    ensures value { result ≡ spec.comparison (map (λ s. stats_of s.now) statistics.now) operator (bound_expr_of left.now) (bound_expr_of right.now) }
    ensures parts { result ≤ million }
{
    match operator {
        Comparison::Equal => equality(statistics, left, right),
        Comparison::NotEqual => MILLION - equality(statistics, left, right),
        Comparison::Less | Comparison::LessOrEqual => less_than(statistics, left, right),
        Comparison::Greater | Comparison::GreaterOrEqual => less_than(statistics, right, left),
    }
}

// A part of the bounds, where they are apart; else another factor.
fn part_or(otherwise: u64, bounds: Bounds, low: i64, high: i64) -> u64
    requires { otherwise ≤ million }
    ensures value { result ≡ spec.part_or otherwise (λ b. spec.part b low high) (Some bounds) }
    ensures parts { result ≤ million }
{
    if bounds.least < bounds.greatest {
        part(bounds, low, high)
    } else {
        otherwise
    }
}

fn less_than<A: Heap>(statistics: &[&Stats<A>], left: &BoundExpr<A>, right: &BoundExpr<A>) -> u64
    ensures value { result ≡ spec.less_than (map (λ s. stats_of s.now) statistics.now) (bound_expr_of left.now) (bound_expr_of right.now) }
    ensures parts { result ≤ million }
{
    match (left, right) {
        (BoundExpr::Column(a), BoundExpr::Literal(Value::Int(v))) => {
            match stats_at(statistics, *a).bounds {
                Some(bounds) => part_or(THIRD, bounds, bounds.least, *v),
                None => THIRD,
            }
        }
        (BoundExpr::Literal(Value::Int(v)), BoundExpr::Column(a)) => {
            match stats_at(statistics, *a).bounds {
                Some(bounds) => part_or(THIRD, bounds, *v, bounds.greatest),
                None => THIRD,
            }
        }
        _ => THIRD,
    }
}

fn range<A: Heap>(
    statistics: &[&Stats<A>],
    operand: &BoundExpr<A>,
    low: &BoundExpr<A>,
    high: &BoundExpr<A>,
) -> u64
    ensures value { result ≡ spec.range (map (λ s. stats_of s.now) statistics.now) (bound_expr_of operand.now) (bound_expr_of low.now) (bound_expr_of high.now) }
    ensures parts { result ≤ million }
{
    match (operand, low, high) {
        (
            BoundExpr::Column(a),
            BoundExpr::Literal(Value::Int(low)),
            BoundExpr::Literal(Value::Int(high)),
        ) => match stats_at(statistics, *a).bounds {
            Some(bounds) => part_or(250_000, bounds, *low, *high),
            None => 250_000,
        },
        (BoundExpr::Column(_), _, _) => 250_000,
        _ => THIRD,
    }
}

fn membership<A: Heap>(statistics: &[&Stats<A>], operand: &BoundExpr<A>, values: u64) -> u64
    ensures value { result ≡ spec.membership (map (λ s. stats_of s.now) statistics.now) (bound_expr_of operand.now) values }
    ensures parts { result ≤ million }
{
    match operand {
        BoundExpr::Column(a) => {
            let one = one_of(stats_at(statistics, *a).distinct);
            (values as u128 * one as u128).min(500_000) as u64
        }
        _ => THIRD,
    }
}

// That of one condition and another.
fn both(one: u64, other: u64) -> u64
    requires one { one ≤ million }
    requires other { other ≤ million }
    ensures value { result ≡ one * other / million }
    ensures parts { result ≤ million }
{
    one * other / MILLION
}

// That of one condition or another.
fn either(one: u64, other: u64) -> u64
    requires one { one ≤ million }
    requires other { other ≤ million }
    ensures value { result ≡ one + other - one * other / million }
    ensures parts { result ≤ million }
{
    let counted_twice = both(one, other);
    one + other - counted_twice
}

// That of all members.
#[cycle(factor)]
fn all_factor<A: Heap>(statistics: &[&Stats<A>], members: &[BoundExpr<A>]) -> u64
    ensures value { result ≡ spec.all_factor (map (λ s. stats_of s.now) statistics.now) million (bound_exprs members.now) }
    ensures parts { result ≤ million }
{
    let mut all = MILLION;
    for member in members {
        let one = factor(statistics, member);
        all = both(all, one);
    }
    all
}

// That of some member.
#[cycle(factor)]
fn any_factor<A: Heap>(statistics: &[&Stats<A>], members: &[BoundExpr<A>]) -> u64
    ensures value { result ≡ spec.any_factor (map (λ s. stats_of s.now) statistics.now) 0 (bound_exprs members.now) }
    ensures parts { result ≤ million }
{
    let mut any = 0;
    for member in members {
        let one = factor(statistics, member);
        any = either(any, one);
    }
    any
}
