//! The conditions, and their truth values on two numbers.

use value::Comparison;

/// A condition on the columns `a` and `b`.
#[derive(Clone, Copy, Debug)]
pub enum Case {
    /// `a op n`.
    Literal(Comparison, i64),
    /// `n op a`.
    LiteralLeft(Comparison, i64),
    /// `a op b`.
    Columns(Comparison),
    /// `a [NOT] BETWEEN low AND high`.
    Between(bool, i64, i64),
    /// `a BETWEEN b AND n`.
    BetweenColumn(i64),
    /// `b IS [NOT] NULL`.
    Null(bool),
    /// `a < n AND b IS NOT NULL AND a <> b`.
    And(i64),
    /// `a < n OR b IS NULL OR a = b`.
    Or(i64),
    /// AND of nothing.
    NoMember,
}

/// All of them, for a literal.
pub static CASES: [Case; 24] = [
    Case::Literal(Comparison::Equal, 7),
    Case::Literal(Comparison::NotEqual, 7),
    Case::Literal(Comparison::Less, 0),
    Case::Literal(Comparison::LessOrEqual, i64::MIN),
    Case::Literal(Comparison::Greater, -1),
    Case::Literal(Comparison::GreaterOrEqual, i64::MAX),
    Case::LiteralLeft(Comparison::Equal, 0),
    Case::LiteralLeft(Comparison::NotEqual, -3),
    Case::LiteralLeft(Comparison::Less, 0),
    Case::LiteralLeft(Comparison::LessOrEqual, 7),
    Case::LiteralLeft(Comparison::Greater, i64::MIN),
    Case::LiteralLeft(Comparison::GreaterOrEqual, -1),
    Case::Columns(Comparison::Equal),
    Case::Columns(Comparison::Less),
    Case::Columns(Comparison::GreaterOrEqual),
    Case::Between(false, -1, 7),
    Case::Between(true, -1, 7),
    Case::Between(false, 7, -1),
    Case::BetweenColumn(7),
    Case::Null(false),
    Case::Null(true),
    Case::And(7),
    Case::Or(0),
    Case::NoMember,
];

/// True where the comparison of two numbers is true.
pub fn holds(op: Comparison, a: i64, b: i64) -> bool {
    match op {
        Comparison::Equal => a == b,
        Comparison::NotEqual => a != b,
        Comparison::Less => a < b,
        Comparison::LessOrEqual => a <= b,
        Comparison::Greater => a > b,
        Comparison::GreaterOrEqual => a >= b,
    }
}

fn compared(op: Comparison, a: Option<i64>, b: Option<i64>) -> Option<bool> {
    match (a, b) {
        (Some(a), Some(b)) => Some(holds(op, a, b)),
        _ => None,
    }
}

fn both(x: Option<bool>, y: Option<bool>) -> Option<bool> {
    match (x, y) {
        (Some(false), _) | (_, Some(false)) => Some(false),
        (Some(true), Some(true)) => Some(true),
        _ => None,
    }
}

fn opposite(x: Option<bool>) -> Option<bool> {
    match x {
        Some(truth) => Some(!truth),
        None => None,
    }
}

fn either(x: Option<bool>, y: Option<bool>) -> Option<bool> {
    opposite(both(opposite(x), opposite(y)))
}

fn within(a: Option<i64>, low: Option<i64>, high: Option<i64>) -> Option<bool> {
    both(
        compared(Comparison::GreaterOrEqual, a, low),
        compared(Comparison::LessOrEqual, a, high),
    )
}

/// The truth value of a condition; null where there is none.
pub fn truth(case: Case, a: Option<i64>, b: Option<i64>) -> Option<bool> {
    match case {
        Case::Literal(op, n) => compared(op, a, Some(n)),
        Case::LiteralLeft(op, n) => compared(op, Some(n), a),
        Case::Columns(op) => compared(op, a, b),
        Case::Between(negated, low, high) => {
            let inside = within(a, Some(low), Some(high));
            if negated { opposite(inside) } else { inside }
        }
        Case::BetweenColumn(n) => within(a, b, Some(n)),
        Case::Null(negated) => Some(b.is_none() != negated),
        Case::And(n) => both(
            both(compared(Comparison::Less, a, Some(n)), Some(b.is_some())),
            compared(Comparison::NotEqual, a, b),
        ),
        Case::Or(n) => either(
            either(compared(Comparison::Less, a, Some(n)), Some(b.is_none())),
            compared(Comparison::Equal, a, b),
        ),
        Case::NoMember => Some(true),
    }
}
