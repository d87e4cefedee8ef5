//! Texts, and the kinds of their tokens or the offset of the first bad one.

use crate::compared::same;
use memory::Failure;
use row_tokens::{Token, TokenError, TokenKind, scan, tokenize};
use std::alloc::{AllocError, Global};
use std::process::Abort;
use std::test::Fail;

// A text, and the kinds of its tokens.
type Kinds = (&'static str, &'static [TokenKind]);

// Texts and the kinds of their tokens, by topic.
static KINDS: [(&str, &[Kinds]); 5] = [
    (
        "signs",
        &[
            (
                "a<=b<>c>=d<e>f=g",
                &[
                    TokenKind::Name,
                    TokenKind::LessEqual,
                    TokenKind::Name,
                    TokenKind::NotEqual,
                    TokenKind::Name,
                    TokenKind::GreaterEqual,
                    TokenKind::Name,
                    TokenKind::Less,
                    TokenKind::Name,
                    TokenKind::Greater,
                    TokenKind::Name,
                    TokenKind::Equal,
                    TokenKind::Name,
                ],
            ),
            (
                "< = > <",
                &[
                    TokenKind::Less,
                    TokenKind::Equal,
                    TokenKind::Greater,
                    TokenKind::Less,
                ],
            ),
            ("/ *", &[TokenKind::Slash, TokenKind::Star]),
            (
                ",.;()*/%+",
                &[
                    TokenKind::Comma,
                    TokenKind::Dot,
                    TokenKind::Semicolon,
                    TokenKind::Open,
                    TokenKind::Close,
                    TokenKind::Star,
                    TokenKind::Slash,
                    TokenKind::Percent,
                    TokenKind::Plus,
                ],
            ),
            (" \t\r\n", &[]),
            ("", &[]),
        ],
    ),
    (
        "minus_before_a_number",
        &[
            ("- 5", &[TokenKind::SignedMinus, TokenKind::Number]),
            ("-5", &[TokenKind::SignedMinus, TokenKind::Number]),
            ("-\n\t5", &[TokenKind::SignedMinus, TokenKind::Number]),
            (
                "-9223372036854775808",
                &[TokenKind::SignedMinus, TokenKind::MinMagnitude],
            ),
            (
                "a - b",
                &[TokenKind::Name, TokenKind::Minus, TokenKind::Name],
            ),
            (
                "a-1",
                &[TokenKind::Name, TokenKind::SignedMinus, TokenKind::Number],
            ),
            (
                "- - 1",
                &[TokenKind::Minus, TokenKind::SignedMinus, TokenKind::Number],
            ),
            (
                "-(1)",
                &[
                    TokenKind::Minus,
                    TokenKind::Open,
                    TokenKind::Number,
                    TokenKind::Close,
                ],
            ),
            ("- ", &[TokenKind::Minus]),
            ("- '5'", &[TokenKind::Minus, TokenKind::Quoted]),
        ],
    ),
    (
        "numbers_and_texts",
        &[
            ("9223372036854775807", &[TokenKind::Number]),
            ("9223372036854775808", &[TokenKind::MinMagnitude]),
            ("0009223372036854775808", &[TokenKind::MinMagnitude]),
            (
                "1.5",
                &[TokenKind::Number, TokenKind::Dot, TokenKind::Number],
            ),
            ("'it''s'", &[TokenKind::Quoted]),
            ("''", &[TokenKind::Quoted]),
            ("'a' 'b'", &[TokenKind::Quoted, TokenKind::Quoted]),
            (r"'\N '", &[TokenKind::Quoted]),
            ("'-- \u{e9}'", &[TokenKind::Quoted]),
        ],
    ),
    (
        "words_in_any_case",
        &[
            ("SeLeCt", &[TokenKind::Select]),
            ("CURRENT_USER", &[TokenKind::CurrentUser]),
            ("current_users", &[TokenKind::Name]),
            ("As", &[TokenKind::As]),
            ("asc", &[TokenKind::Asc]),
            ("IN", &[TokenKind::In]),
            ("Inner", &[TokenKind::Inner]),
            ("oR", &[TokenKind::Or]),
            ("ORDER", &[TokenKind::Order]),
            ("Where", &[TokenKind::Where]),
            ("NULL", &[TokenKind::Null]),
            ("nO", &[TokenKind::No]),
            ("Not", &[TokenKind::Not]),
            ("Distinct", &[TokenKind::Reserved]),
            ("WITH", &[TokenKind::Reserved]),
            ("left", &[TokenKind::Left]),
            ("OuTeR", &[TokenKind::Outer]),
            ("Right", &[TokenKind::Reserved]),
            ("ByPassRLS", &[TokenKind::Bypassrls]),
            ("Restrictive", &[TokenKind::Restrictive]),
            ("BigInt", &[TokenKind::Bigint]),
            ("MAX", &[TokenKind::Max]),
            ("avg", &[TokenKind::Name]),
            ("_select", &[TokenKind::Name]),
            ("delete", &[TokenKind::Name]),
        ],
    ),
    ("names_have_at_most_63_bytes", &[(LONG, &[TokenKind::Name])]),
];

// Of 63 bytes, and one more.
const LONG: &str = "abcdefghijklmnopqrstuvwxyz_0123456789_ABCDEFGHIJKLMNOPQRSTUVWXY";

// A text, and the offset of its first bad token.
static BAD: [(&str, u32); 20] = [
    ("SELECT 1 -- x", 9),
    ("--", 0),
    ("SELECT 1 /* x", 9),
    ("/*", 0),
    (r"'\N'", 0),
    (r"a = '\N'", 4),
    ("'abc", 0),
    ("'abc''", 0),
    ("12\u{e9}", 2),
    ("12a", 0),
    ("12_", 0),
    ("9223372036854775809", 0),
    ("- 9223372036854775809", 2),
    ("99999999999999999999999", 0),
    ("\"a\"", 0),
    ("a\u{e9}", 1),
    ("a != b", 2),
    ("a || b", 2),
    ("a\u{a0}b", 1),
    ("a\u{b}b", 1),
];

fn kinds() -> &'static [(&'static str, &'static [Kinds])] {
    &KINDS
}

fn bad() -> &'static [(&'static str, u32)] {
    &BAD
}

// Tokens are of these kinds.
fn are_of_kinds(rt: &impl Abort, name: &str, text: &str, found: &[Token<'_>], kinds: &[TokenKind]) {
    same(rt, &found.len(), &kinds.len(), name, &text);
    for (token, kind) in found.iter().zip(kinds) {
        same(rt, &token.kind, kind, name, &text);
    }
}

// The tokens of a text are of these kinds.
fn has_kinds(rt: &(impl Abort + AllocGlobal), name: &str, text: &str, kinds: &[TokenKind]) {
    match tokenize(rt.alloc(), text) {
        Ok(found) => are_of_kinds(rt, name, text, found.as_slice(), kinds),
        Err(error) => panic!(rt; "{name}: {text}: {error:?}"),
    }
}

// The error of a text that is not made of tokens, if it is not.
fn refusal(alloc: Global, text: &str) -> Option<Failure<TokenError>> {
    tokenize(alloc, text).err()
}

// The kind and the offset of the last token, if there is one.
fn last_of(found: &[Token<'_>]) -> Option<(TokenKind, u32)> {
    match found.last() {
        Some(token) => Some((token.kind, token.offset)),
        None => None,
    }
}

// The last token that is scanned is bad, at this offset.
fn scanned_to(rt: &(impl Abort + AllocGlobal), text: &str, at: u32) {
    assert!(rt; text.len() < 65_536, "{text}");
    match scan(rt.alloc(), text) {
        Ok(found) => {
            let last = last_of(found.as_slice());
            same(rt, &last, &Some((TokenKind::Bad, at)), "scan", &text);
        }
        Err(error) => panic!(rt; "{text}: {error:?}"),
    }
}

// The first bad token of a text is at this offset, and is the last that is scanned.
fn bad_at(rt: &(impl Abort + AllocGlobal), text: &str, at: u32) {
    let want = Failure::Error(TokenError::Bad { offset: at });
    same(
        rt,
        &refusal(rt.alloc(), text),
        &Some(want),
        "tokenize",
        &text,
    );
    scanned_to(rt, text, at);
}

fn have_kinds(rt: &(impl Abort + AllocGlobal), name: &str, rows: &[Kinds]) {
    for (text, kinds) in rows {
        has_kinds(rt, name, text, kinds);
    }
}

#[test]
fn tokens_have_their_kinds(rt: HostRuntime) {
    assert_eq!(rt; LONG.len(), 63);
    for (name, rows) in kinds() {
        have_kinds(&rt, name, rows);
    }
}

#[test]
fn first_bad_token_is_reported(rt: HostRuntime) -> Result<(), Fail> {
    for (text, at) in bad() {
        bad_at(&rt, text, *at);
    }
    let longer = format!(in rt.alloc(); "{LONG}x")?;
    bad_at(&rt, longer.as_str(), 0);
    Ok(())
}

// A thousand spaces, and tokens after them.
fn spaced(alloc: Global) -> Result<String, AllocError> {
    let mut text = String::new(alloc);
    for _ in 0..1000 {
        text.push(' ')?;
    }
    text.push_str("a = -007 AND 'x''y' <> b")?;
    Ok(text)
}

// The offset of a token, its text and its number.
static PLACES: [(u32, &str, u64); 8] = [
    (1000, "a", 0),
    (1002, "=", 0),
    (1004, "-", 0),
    (1005, "007", 7),
    (1009, "AND", 0),
    (1013, "'x''y'", 0),
    (1020, "<>", 0),
    (1023, "b", 0),
];

fn places() -> &'static [(u32, &'static str, u64)] {
    &PLACES
}

fn are_at_their_places(rt: &impl Abort, found: &[Token<'_>]) {
    let name = "tokens_have_offsets_and_numbers";
    same(rt, &found.len(), &places().len(), name, &"how many");
    for (token, place) in found.iter().zip(places()) {
        let found = (token.offset, token.text, token.number);
        same(rt, &found, place, name, &token.text);
    }
}

#[test]
fn tokens_have_offsets_and_numbers(rt: HostRuntime) -> Result<(), Fail> {
    let text = spaced(rt.alloc())?;
    match tokenize(rt.alloc(), text.as_str()) {
        Ok(found) => are_at_their_places(&rt, found.as_slice()),
        Err(error) => panic!(rt; "{error:?}"),
    }
    Ok(())
}
