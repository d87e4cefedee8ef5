//! Values: arithmetic, logic of three values, comparison, and texts.

ghost use Rattle.std.specs.Prelude.{◌<◌};

use crate::compared::same;
use Operation::{Add, Div, Mul, Neg, Rem, Sub};
use Sample::{Bool, Int, Null};
use memory::Failure;
use std::alloc::Global;
use std::borrow::CowStr;
use std::process::Abort;
use value::{
    ColType, FaultKind, Lent, Truth, Val, add, and3, as_condition, cast, div, eq3, lt3, mul, neg,
    not3, of_truth, or3, read_bigint, read_value, rem, sub, text_of,
};

// A value of a row.
#[derive(Clone, Copy)]
enum Sample {
    Null,
    Int(i64),
    Bool(bool),
}

fn value_of<'r>(sample: Sample) -> Val<'r, Global> {
    match sample {
        Null => Val::Null,
        Int(n) => Val::Int(n),
        Bool(b) => Val::Bool(b),
    }
}

// ---- arithmetic

#[derive(Clone, Copy)]
enum Operation {
    Add,
    Sub,
    Mul,
    Div,
    Rem,
    Neg,
}

// An operation, its operands, and its result; a Neg has one operand.
type Computed = (Operation, Sample, Sample, Result<Option<i64>, FaultKind>);

const MOST: Sample = Int(i64::MAX);

const LEAST: Sample = Int(i64::MIN);

static ARITHMETIC: [(&str, &[Computed]); 4] = [
    (
        "sums_differences_and_products",
        &[
            (Add, Int(2), Int(-5), Ok(Some(-3))),
            (Add, MOST, Int(1), Err(FaultKind::Range)),
            (Add, LEAST, Int(-1), Err(FaultKind::Range)),
            (Sub, Int(2), Int(5), Ok(Some(-3))),
            (Sub, Int(-1), LEAST, Ok(Some(i64::MAX))),
            (Sub, Int(0), LEAST, Err(FaultKind::Range)),
            (Mul, Int(-7), Int(6), Ok(Some(-42))),
            (Mul, LEAST, Int(-1), Err(FaultKind::Range)),
            (Neg, MOST, Null, Ok(Some(-9_223_372_036_854_775_807))),
            (Neg, LEAST, Null, Err(FaultKind::Range)),
        ],
    ),
    // The quotient and the remainder of each pair.
    (
        "division_toward_zero",
        &[
            (Div, Int(7), Int(2), Ok(Some(3))),
            (Rem, Int(7), Int(2), Ok(Some(1))),
            (Div, Int(-7), Int(2), Ok(Some(-3))),
            (Rem, Int(-7), Int(2), Ok(Some(-1))),
            (Div, Int(7), Int(-2), Ok(Some(-3))),
            (Rem, Int(7), Int(-2), Ok(Some(1))),
            (Div, Int(-7), Int(-2), Ok(Some(3))),
            (Rem, Int(-7), Int(-2), Ok(Some(-1))),
            (Div, Int(0), Int(-3), Ok(Some(0))),
            (Rem, Int(0), Int(-3), Ok(Some(0))),
            (Div, LEAST, Int(1), Ok(Some(i64::MIN))),
            (Rem, LEAST, Int(1), Ok(Some(0))),
            (Div, LEAST, Int(2), Ok(Some(-4_611_686_018_427_387_904))),
            (Rem, LEAST, Int(2), Ok(Some(0))),
        ],
    ),
    (
        "least_by_minus_one_and_division_by_zero",
        &[
            (Div, LEAST, Int(-1), Err(FaultKind::Range)),
            (Rem, LEAST, Int(-1), Ok(Some(0))),
            (Div, Int(1), Int(0), Err(FaultKind::Div0)),
            (Rem, Int(1), Int(0), Err(FaultKind::Div0)),
            (Div, Int(0), Int(0), Err(FaultKind::Div0)),
        ],
    ),
    (
        "null_operands_give_null",
        &[
            (Add, Null, Int(0), Ok(None)),
            (Sub, Int(0), Null, Ok(None)),
            (Mul, Null, Null, Ok(None)),
            (Div, Null, Int(0), Ok(None)),
            (Div, Int(0), Null, Ok(None)),
            (Rem, Null, Int(0), Ok(None)),
            (Neg, Null, Null, Ok(None)),
        ],
    ),
];

fn arithmetic() -> &'static [(&'static str, &'static [Computed])] {
    &ARITHMETIC
}

fn computed<'r>(
    operation: Operation,
    a: &Val<'_, Global>,
    b: &Val<'_, Global>,
) -> Result<Val<'r, Global>, FaultKind> {
    match operation {
        Add => add(a, b),
        Sub => sub(a, b),
        Mul => mul(a, b),
        Div => div(a, b),
        Rem => rem(a, b),
        Neg => neg(a),
    }
}

// The number that was found, if it is one or null, or the fault.
fn number_of<E: Copy>(found: Result<Val<'_, Global>, E>) -> Option<Result<Option<i64>, E>> {
    match found {
        Ok(Val::Int(n)) => Some(Ok(Some(n))),
        Ok(Val::Null) => Some(Ok(None)),
        Ok(_) => None,
        Err(fault) => Some(Err(fault)),
    }
}

fn gives(rt: &impl Abort, name: &str, row: usize, computation: &Computed) {
    let (operation, a, b, want) = *computation;
    let found = number_of(computed(operation, &value_of(a), &value_of(b)));
    same(rt, &found, &Some(want), name, &row);
}

fn all_give(rt: &impl Abort, name: &str, rows: &[Computed]) {
    for (row, computation) in rows.iter().enumerate() {
        gives(rt, name, row, computation);
    }
}

#[test]
fn arithmetic_of_bigints_and_nulls(rt: HostRuntime) {
    for (name, rows) in arithmetic() {
        all_give(&rt, name, rows);
    }
}

// ---- truth values

// Two truth values, both, either.
static TRUTHS: [(Truth, Truth, Truth, Truth); 9] = [
    (Truth::False, Truth::False, Truth::False, Truth::False),
    (Truth::False, Truth::Unknown, Truth::False, Truth::Unknown),
    (Truth::False, Truth::True, Truth::False, Truth::True),
    (Truth::Unknown, Truth::False, Truth::False, Truth::Unknown),
    (
        Truth::Unknown,
        Truth::Unknown,
        Truth::Unknown,
        Truth::Unknown,
    ),
    (Truth::Unknown, Truth::True, Truth::Unknown, Truth::True),
    (Truth::True, Truth::False, Truth::False, Truth::True),
    (Truth::True, Truth::Unknown, Truth::Unknown, Truth::True),
    (Truth::True, Truth::True, Truth::True, Truth::True),
];

fn truths() -> &'static [(Truth, Truth, Truth, Truth)] {
    &TRUTHS
}

// A truth value and its negation.
static NEGATIONS: [(Truth, Truth); 3] = [
    (Truth::False, Truth::True),
    (Truth::Unknown, Truth::Unknown),
    (Truth::True, Truth::False),
];

fn negations() -> &'static [(Truth, Truth)] {
    &NEGATIONS
}

fn truth_tables(rt: &impl Abort) {
    for (row, (a, b, both, either)) in truths().iter().enumerate() {
        let found = (and3(*a, *b), or3(*a, *b));
        same(rt, &found, &(*both, *either), "AND and OR: row", &row);
    }
}

// A truth value as a condition, by way of its value.
fn condition_of(truth: Truth) -> Truth {
    let value: Val<'_, Global> = of_truth(truth);
    as_condition(&value)
}

fn conditions(rt: &impl Abort) {
    for (row, (truth, negated)) in negations().iter().enumerate() {
        let found = (not3(*truth), condition_of(*truth));
        same(
            rt,
            &found,
            &(*negated, *truth),
            "NOT and condition: row",
            &row,
        );
    }
    let number = as_condition(&value_of(Int(1)));
    same(rt, &number, &Truth::Unknown, "condition", &1);
}

// Two values, and the test that the first is less.
static LESS: [(Sample, Sample, Truth); 5] = [
    (Int(-3), Int(2), Truth::True),
    (Int(2), Int(2), Truth::False),
    (Int(2), Null, Truth::Unknown),
    (Null, Int(2), Truth::Unknown),
    (Bool(false), Bool(true), Truth::True),
];

fn less() -> &'static [(Sample, Sample, Truth)] {
    &LESS
}

fn is_less(a: Sample, b: Sample) -> Truth {
    lt3(&value_of(a), &value_of(b))
}

fn is_equal(a: Sample, b: Sample) -> Truth {
    eq3(&value_of(a), &value_of(b))
}

fn comparisons(rt: &impl Abort) {
    for (row, (a, b, want)) in less().iter().enumerate() {
        same(rt, &is_less(*a, *b), want, "comparisons: row", &row);
    }
    let nulls = is_equal(Null, Null);
    same(rt, &nulls, &Truth::Unknown, "comparisons", &"null = null");
}

#[test]
fn truth_tables_conditions_and_comparisons(rt: HostRuntime) {
    truth_tables(&rt);
    conditions(&rt);
    comparisons(&rt);
}

// ---- texts

static BIGINTS: [(&str, Result<i64, FaultKind>); 30] = [
    ("-0", Err(FaultKind::BadText)),
    ("007", Err(FaultKind::BadText)),
    ("+1", Err(FaultKind::BadText)),
    ("", Err(FaultKind::BadText)),
    ("-", Err(FaultKind::BadText)),
    (" 1", Err(FaultKind::BadText)),
    ("0", Ok(0)),
    ("-1", Ok(-1)),
    ("9223372036854775807", Ok(i64::MAX)),
    ("9223372036854775808", Err(FaultKind::Range)),
    ("-9223372036854775808", Ok(i64::MIN)),
    ("-9223372036854775809", Err(FaultKind::Range)),
    ("1234567", Ok(1_234_567)),
    ("-1234567", Ok(-1_234_567)),
    ("12345678", Ok(12_345_678)),
    ("-12345678", Ok(-12_345_678)),
    ("00000001", Err(FaultKind::BadText)),
    ("10000000", Ok(10_000_000)),
    ("99999999", Ok(99_999_999)),
    ("234567890", Ok(234_567_890)),
    ("-234567890", Ok(-234_567_890)),
    ("987654321098765", Ok(987_654_321_098_765)),
    ("9876543210987654", Ok(9_876_543_210_987_654)),
    ("-1000000020000000", Ok(-1_000_000_020_000_000)),
    ("98765432109876543", Ok(98_765_432_109_876_543)),
    ("-98765432109876543", Ok(-98_765_432_109_876_543)),
    ("999999999999999999", Ok(999_999_999_999_999_999)),
    ("-999999999999999999", Ok(-999_999_999_999_999_999)),
    ("1234567890123456789", Ok(1_234_567_890_123_456_789)),
    ("9876543210987654321", Err(FaultKind::Range)),
];

fn bigints() -> &'static [(&'static str, Result<i64, FaultKind>)] {
    &BIGINTS
}

static BOOLEANS: [(&str, Result<bool, FaultKind>); 7] = [
    ("t", Ok(true)),
    ("f", Ok(false)),
    ("T", Err(FaultKind::BadText)),
    ("F", Err(FaultKind::BadText)),
    ("true", Err(FaultKind::BadText)),
    ("", Err(FaultKind::BadText)),
    ("0", Err(FaultKind::BadText)),
];

fn booleans() -> &'static [(&'static str, Result<bool, FaultKind>)] {
    &BOOLEANS
}

// The truth value that a text is read as, if it is one, or the fault.
fn boolean_of(text: &str) -> Option<Result<bool, FaultKind>> {
    let read = read_value(ColType::Boolean, text.as_bytes());
    match read {
        Ok(Lent::Bool(found)) => Some(Ok(found)),
        Ok(_) => None,
        Err(kind) => Some(Err(kind)),
    }
}

fn texts_of_booleans(rt: &impl Abort) {
    for (text, want) in booleans() {
        let found = boolean_of(text);
        same(rt, &found, &Some(*want), "texts_of_booleans", text);
    }
}

fn texts_of_bigints(rt: &impl Abort) {
    for (text, want) in bigints() {
        same(
            rt,
            &read_bigint(text.as_bytes()),
            want,
            "texts_of_bigints",
            text,
        );
    }
}

// Bytes that are no digits, among them both neighbours of the digits.
static NO_DIGITS: [u8; 10] = [0, b' ', b'/', b':', b'?', b'a', b'q', 0x80, 0xB1, 0xFF];

fn no_digits() -> &'static [u8] {
    &NO_DIGITS
}

// Digits with such a byte at a place: all 18, and those up to it.
fn with_no_digit(rt: &impl Abort, place: usize, byte: u8)
    requires { place < 18 }
{
    let mut text = *b"123456789012345678";
    text[place] = byte;
    let bad = Err(FaultKind::BadText);
    same(
        rt,
        &read_bigint(&text),
        &bad,
        "texts_of_bigints: place",
        &place,
    );
    let front = read_bigint(&text[..=place]);
    same(rt, &front, &bad, "texts_of_bigints: last place", &place);
}

fn with_no_digit_at(rt: &impl Abort, place: usize)
    requires { place < 18 }
{
    for byte in no_digits() {
        with_no_digit(rt, place, *byte);
    }
}

fn bigints_with_no_digit(rt: &impl Abort) {
    for place in 0..18 {
        with_no_digit_at(rt, place);
    }
}

// A value, and its text.
static WRITTEN: [(Sample, Option<&str>); 6] = [
    (Int(0), Some("0")),
    (Int(-7), Some("-7")),
    (LEAST, Some("-9223372036854775808")),
    (Bool(true), Some("t")),
    (Bool(false), Some("f")),
    (Null, None),
];

fn samples() -> &'static [(Sample, Option<&'static str>)] {
    &WRITTEN
}

// The text that is lent, if there is one.
fn lent<'t>(text: &'t Option<CowStr<'_, Global>>) -> Option<&'t str> {
    match text {
        Some(text) => Some(text.as_str()),
        None => None,
    }
}

fn written(rt: &(impl Abort + AllocGlobal), value: &Val<'_, Global>, want: Option<&str>) {
    match text_of(rt.alloc(), value) {
        Ok(text) => same(rt, &lent(&text), &want, "texts_of_values", &"written"),
        Err(_) => panic!(rt; "texts_of_values: out of memory"),
    }
}

fn text_value<'t>(rt: &impl Abort, text: &'t str) -> Val<'t, Global> {
    match read_value(ColType::Text, text.as_bytes()) {
        Ok(value) => Val::of(Some(value)),
        Err(error) => panic!(rt; "{text}: {error:?}"),
    }
}

fn texts_of_values(rt: &(impl Abort + AllocGlobal)) {
    for (sample, want) in samples() {
        written(rt, &value_of(*sample), *want);
    }
    let text = text_value(rt, "a,\u{e9}");
    written(rt, &text, Some("a,\u{e9}"));
}

// The number that a value is cast to.
fn cast_number(
    alloc: Global,
    value: Val<'_, Global>,
) -> Option<Result<Option<i64>, Failure<FaultKind>>> {
    number_of(cast(alloc, ColType::Bigint, value))
}

fn number_there_and_back(rt: &(impl Abort + AllocGlobal)) {
    match cast(rt.alloc(), ColType::Text, Val::Int(-12)) {
        Ok(text) => {
            written(rt, &text, Some("-12"));
            let back = cast_number(rt.alloc(), text);
            same(rt, &back, &Some(Ok(Some(-12))), "casts", &-12);
        }
        Err(error) => panic!(rt; "casts: {error:?}"),
    }
}

fn casts(rt: &(impl Abort + AllocGlobal)) {
    number_there_and_back(rt);
    let wrong = cast_number(rt.alloc(), text_value(rt, "012"));
    let fault = Failure::Error(FaultKind::BadText);
    same(rt, &wrong, &Some(Err(fault)), "casts", &"012");
    let null = number_of(cast(rt.alloc(), ColType::Text, Val::Null));
    same(rt, &null, &Some(Ok(None)), "casts", &"null");
}

// A fault, and its code.
static CODES: [(FaultKind, &str); 3] = [
    (FaultKind::Div0, "22012"),
    (FaultKind::Range, "22003"),
    (FaultKind::BadText, "22P02"),
];

fn codes() -> &'static [(FaultKind, &'static str)] {
    &CODES
}

fn faults_are_reported_by_code(rt: &impl Abort) {
    for (kind, code) in codes() {
        same(
            rt,
            &kind.code(),
            code,
            "faults_are_reported_by_code",
            &"code",
        );
    }
}

#[test]
fn values_are_read_written_and_cast(rt: HostRuntime) {
    texts_of_bigints(&rt);
    bigints_with_no_digit(&rt);
    texts_of_booleans(&rt);
    texts_of_values(&rt);
    casts(&rt);
    faults_are_reported_by_code(&rt);
}
