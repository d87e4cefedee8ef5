//! Values from their texts.

ghost use Rattle.std.specs.Prelude.{◌≡◌};
ghost use Rattle.std.specs.List.{list_all};
ghost use Rattle.std.specs.Char.{is_ascii_digit};
ghost use Rattle.value.specs.Datum.{lents_of};
ghost use Rattle.value.specs.Texts.{is_positive, is_spelled, bigint_at, boolean_at, value_in, ReadAgain, OneSpelling};

use crate::digits::few_spelled;
use crate::types::{ColType, FaultKind, Lent};
use std::str;

fn are_digits(text: &[u8]) -> bool
    ensures { result ≡ list_all is_ascii_digit text.now }
{
    text.iter().all(|d| d.is_ascii_digit())
}

// Digits that do not start with 0.
fn is_positive(text: &[u8]) -> bool
    ensures { result ≡ is_positive text.now }
{
    match text {
        [] => false,
        [b'0', ..] => false,
        _ => are_digits(text),
    }
}

// An optional minus, and digits that do not start with 0.
fn is_spelled(text: &[u8]) -> bool
    ensures { result ≡ is_spelled text.now }
{
    match text {
        [] => false,
        [b'-', digits @ ..] => is_positive(digits),
        _ => is_positive(text),
    }
}

// The bigint that a text of any length spells.
fn any_bigint(text: &str) -> Result<i64, FaultKind>
    ensures { result ≡ bigint_at text.now }
{
    if is_spelled(text.as_bytes()) {
        match text.parse::<i64>() {
            Ok(n) => Ok(n),
            Err(_) => Err(FaultKind::Range),
        }
    } else if text == "0" {
        Ok(0)
    } else {
        Err(FaultKind::BadText)
    }
}

// The bigint that bytes of any length spell; bytes that are no UTF-8 spell none.
fn bigint_of_bytes(text: &[u8]) -> Result<i64, FaultKind>
    ensures { result ≡ bigint_at text.now }
{
    match str::from_utf8(text) {
        Ok(text) => any_bigint(text),
        Err(_) => Err(FaultKind::BadText),
    }
}

/// The bigint that bytes spell: `0`, or an optional minus and digits that do not start with 0. At most 18 bytes are read in
/// one pass, eight digits at a time.
pub fn read_bigint(text: &[u8]) -> Result<i64, FaultKind>
    ensures { result ≡ bigint_at text.now }
{
    if text.len() > 18 {
        return bigint_of_bytes(text);
    }
    match few_spelled(text) {
        Some(n) => Ok(n),
        None => match text {
            [b'0'] => Ok(0),
            _ => Err(FaultKind::BadText),
        },
    }
}

fn read_boolean<'t>(text: &[u8]) -> Result<Lent<'t>, FaultKind>
    ensures { lents_of result ≡ boolean_at text.now }
{
    match text {
        [b't'] => Ok(Lent::Bool(true)),
        [b'f'] => Ok(Lent::Bool(false)),
        _ => Err(FaultKind::BadText),
    }
}

fn read_text<'t>(text: &'t [u8]) -> Result<Lent<'t>, FaultKind>
    ensures { lents_of result ≡ value_in ColType.Text text.now }
{
    match str::from_utf8(text) {
        Ok(text) => Ok(Lent::Text(text)),
        Err(_) => Err(FaultKind::BadText),
    }
}

/// The value of a type that bytes spell: a bigint, `t` or `f`, or the text itself, which is lent. Bytes that are no UTF-8
/// spell none.
pub fn read_value<'t>(kind: ColType, text: &'t [u8]) -> Result<Lent<'t>, FaultKind>
    ensures { lents_of result ≡ value_in kind text.now }
{
    match kind {
        ColType::Bigint => match read_bigint(text) {
            Ok(n) => Ok(Lent::Int(n)),
            Err(kind) => Err(kind),
        },
        ColType::Text => read_text(text),
        ColType::Boolean => read_boolean(text),
    }
}

/// A bigint has one text, and nothing else is read as it.
pub fn law_one_spelling()
    ensures read_again { ReadAgain }
    ensures one_spelling { OneSpelling }
{}
