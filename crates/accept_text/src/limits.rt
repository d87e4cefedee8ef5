//! Texts at the limits and one past them.

use crate::compared::same;
use memory::Failure;
use std::alloc::{AllocError, Global};
use std::process::Abort;
use std::test::Fail;
use syntax::ParseError::Syntax;
use syntax::{ParseError, parse_query, parse_schema, parse_statement};

// The kind of a text.
enum Parser {
    Query,
    Statement,
    Schema,
}

// A text before and one after; between them an opening so many times, an inner part, and a closing as often; and the
// error of the whole, if it is refused.
type Row = (
    (&'static str, &'static str),
    (&'static str, &'static str, &'static str),
    usize,
    Option<ParseError>,
);

// A name, the kind of the texts, and the texts.
type Group = (&'static str, Parser, &'static [Row]);

const PAST: Option<ParseError> = Some(ParseError::Limit);

const ITEM: (&str, &str) = ("SELECT ", " FROM region");

const FILTER: (&str, &str) = ("SELECT a FROM t WHERE ", "");

const ON: (&str, &str) = (
    "SELECT a FROM t JOIN u ON b AND c JOIN v ON d CROSS JOIN w WHERE ",
    "",
);

const LEFT_ON: (&str, &str) = (
    "SELECT a FROM t JOIN u ON b AND c LEFT JOIN v ON d LEFT JOIN w ON e WHERE ",
    "",
);

const POLICY: (&str, &str) = ("CREATE POLICY p ON t USING (", ")");

const NAME: &str = "abcdefghijklmnopqrstuvwxyz_0123456789_ABCDEFGHIJKLMNOPQRSTUVWXY";

// The texts before and after alone.
const ONCE: (&str, &str, &str) = ("", "", "");

// Levels of nesting.
static NESTING: [Group; 5] = [
    (
        "nesting_of_64",
        Parser::Query,
        &[
            (ITEM, ("(", "1", ")"), 64, None),
            (ITEM, ("(", "1", ")"), 65, PAST),
            (ITEM, ("CASE WHEN ", "1", " THEN 1 END"), 64, None),
            (ITEM, ("CASE WHEN ", "1", " THEN 1 END"), 65, PAST),
            (ITEM, ("CASE WHEN a THEN b ELSE ", "1", " END"), 64, None),
            (ITEM, ("CASE WHEN a THEN b ELSE ", "1", " END"), 65, PAST),
            (ITEM, ("NOT ", "a", ""), 64, None),
            (ITEM, ("NOT ", "a", ""), 65, PAST),
            (ITEM, ("- ", "a", ""), 64, None),
            (ITEM, ("- ", "a", ""), 65, PAST),
            (ITEM, ("CAST(", "a", " AS text)"), 64, None),
            (ITEM, ("CAST(", "a", " AS text)"), 65, PAST),
            (ITEM, ("sum(", "a", ")"), 64, None),
            (ITEM, ("sum(", "a", ")"), 65, PAST),
            (ITEM, ("count(", "-1", ")"), 64, None),
            (ITEM, ("count(", "-1", ")"), 65, PAST),
        ],
    ),
    // Three levels each, and inside one more, then two more.
    (
        "all_kinds_of_nesting_count_together",
        Parser::Query,
        &[
            (ITEM, ("(NOT - ", "(a)", ")"), 21, None),
            (ITEM, ("(NOT - ", "((a))", ")"), 21, PAST),
            (ITEM, ("(NOT - ", "count(*)", ")"), 21, None),
            (ITEM, ("(NOT - ", "count(-a)", ")"), 21, PAST),
            (ITEM, ("(NOT - ", "(a IS NULL)", ")"), 21, None),
            (ITEM, ("(NOT - ", "(a IN (1))", ")"), 21, PAST),
            (
                ITEM,
                ("(CASE WHEN CAST(", "- a", " AS text) THEN b END)"),
                21,
                None,
            ),
            (
                ITEM,
                ("(CASE WHEN CAST(", "- - a", " AS text) THEN b END)"),
                21,
                PAST,
            ),
        ],
    ),
    // Within 64 parentheses; a minus of a literal opens none, nor does a NOT that is no prefix.
    (
        "what_opens_a_level",
        Parser::Query,
        &[
            (ITEM, ("(", "-5", ")"), 64, None),
            (ITEM, ("(", "a IS NOT NULL", ")"), 64, None),
            (ITEM, ("(", "a NOT BETWEEN 1 AND 2", ")"), 64, None),
            (ITEM, ("(", "a - b", ")"), 64, None),
            (ITEM, ("(", "-a", ")"), 64, PAST),
            (ITEM, ("(", "NOT a", ")"), 64, PAST),
            (ITEM, ("(", "a IN (1)", ")"), 64, PAST),
            (ITEM, ("(", "a NOT IN (1)", ")"), 64, PAST),
            (ITEM, ("(", "count(*)", ")"), 64, PAST),
            (ITEM, ("(", "CAST(a AS text)", ")"), 64, PAST),
            (ITEM, ("(", "CASE WHEN a THEN b END", ")"), 64, PAST),
        ],
    ),
    (
        "a_closed_level_does_not_count",
        Parser::Query,
        &[(("SELECT a", " FROM t"), (", (NOT (- a))", "", ""), 63, None)],
    ),
    // The parenthesis after USING is the first level.
    (
        "nesting_and_runs_of_a_policy",
        Parser::Statement,
        &[
            (POLICY, ("(", "1", ")"), 63, None),
            (POLICY, ("(", "1", ")"), 64, PAST),
            (POLICY, ("", "a", " AND a"), 64, PAST),
        ],
    ),
];

// Runs of operators, conjuncts, and lists.
static RUNS: [Group; 6] = [
    // One operand, and an operator with an operand after it 63 and 64 times.
    (
        "runs_of_64",
        Parser::Query,
        &[
            (ITEM, ("", "a", " * a"), 63, None),
            (ITEM, ("", "a", " * a"), 64, PAST),
            (ITEM, ("", "a", " / a"), 63, None),
            (ITEM, ("", "a", " / a"), 64, PAST),
            (ITEM, ("", "a", " % a"), 63, None),
            (ITEM, ("", "a", " % a"), 64, PAST),
            (ITEM, ("", "a", " + a"), 63, None),
            (ITEM, ("", "a", " + a"), 64, PAST),
            (ITEM, ("", "a", " - a"), 63, None),
            (ITEM, ("", "a", " - a"), 64, PAST),
            (ITEM, ("", "a", " - 1"), 63, None),
            (ITEM, ("", "a", " - 1"), 64, PAST),
            (ITEM, ("", "a", " AND a"), 63, None),
            (ITEM, ("", "a", " AND a"), 64, PAST),
            (ITEM, ("", "a", " OR a"), 63, None),
            (ITEM, ("", "a", " OR a"), 64, PAST),
        ],
    ),
    // Two more operands each; the last row has no long run.
    (
        "operators_of_one_level_are_one_run",
        Parser::Query,
        &[
            (ITEM, ("", "a", " * a / a"), 31, None),
            (ITEM, ("", "a", " * a / a"), 32, PAST),
            (ITEM, ("", "a", " + a - a"), 31, None),
            (ITEM, ("", "a", " + a - a"), 32, PAST),
            (ITEM, ("", "a", " + (a * a) - 1"), 31, None),
            (ITEM, ("", "a", " + (a * a) - 1"), 32, PAST),
            (ITEM, ("", "a", " AND a AND a"), 31, None),
            (ITEM, ("", "a", " AND a AND a"), 32, PAST),
            (ITEM, ("", "a", " AND a = b OR a"), 31, None),
            (ITEM, ("", "a", " AND a = b OR a"), 32, None),
        ],
    ),
    // Two lists of 40 members in parentheses.
    (
        "merged_lists_may_be_longer_than_a_run",
        Parser::Query,
        &[
            (
                ("SELECT (a", ") FROM t"),
                (" AND a", ") AND (a", " AND a"),
                39,
                None,
            ),
            // As a condition they are 80 conjuncts.
            (
                ("SELECT a FROM t WHERE (a", ")"),
                (" AND a", ") AND (a", " AND a"),
                39,
                PAST,
            ),
        ],
    ),
    (
        "conjuncts_of_on_and_where_together",
        Parser::Query,
        &[
            (FILTER, ("", "a", " AND a"), 63, None),
            // An expression that is no AND is one conjunct, and HAVING has none.
            (
                ("SELECT a FROM t JOIN u ON ", ""),
                ("", "a", " OR a"),
                63,
                None,
            ),
            (
                ("SELECT a FROM t WHERE ", " HAVING b AND c"),
                ("", "a", " AND a"),
                63,
                None,
            ),
            (ON, ("", "a", " AND a"), 60, None),
            (ON, ("", "a", " AND a"), 61, PAST),
            (LEFT_ON, ("", "a", " AND a"), 59, None),
            (LEFT_ON, ("", "a", " AND a"), 60, PAST),
            // The last of them is a conjunct of a left join.
            (
                (
                    "SELECT a FROM t LEFT JOIN u ON b LEFT JOIN v ON ",
                    " WHERE c AND d",
                ),
                ("", "a", " AND a"),
                60,
                None,
            ),
            (
                (
                    "SELECT a FROM t LEFT JOIN u ON b LEFT JOIN v ON ",
                    " WHERE c AND d",
                ),
                ("", "a", " AND a"),
                61,
                PAST,
            ),
        ],
    ),
    (
        "entries_items_groups_and_keys",
        Parser::Query,
        &[
            (("SELECT a FROM ", ""), ("", "a", ", a"), 11, None),
            (("SELECT a FROM ", ""), ("", "a", ", a"), 12, PAST),
            (("SELECT a FROM ", ""), ("", "a", " CROSS JOIN a"), 11, None),
            (("SELECT a FROM ", ""), ("", "a", " CROSS JOIN a"), 12, PAST),
            (("SELECT a FROM ", ""), ("", "a", " JOIN a ON b"), 11, None),
            (("SELECT a FROM ", ""), ("", "a", " JOIN a ON b"), 12, PAST),
            (
                ("SELECT a FROM ", ""),
                ("", "a", " LEFT JOIN a ON b"),
                11,
                None,
            ),
            (
                ("SELECT a FROM ", ""),
                ("", "a", " LEFT JOIN a ON b"),
                12,
                PAST,
            ),
            (
                ("SELECT a FROM t, u JOIN v ON b", ""),
                ("", "", " LEFT JOIN a ON b"),
                9,
                None,
            ),
            (
                ("SELECT a FROM t, u JOIN v ON b", ""),
                ("", "", " LEFT JOIN a ON b"),
                10,
                PAST,
            ),
            (("SELECT ", " FROM t"), ("", "a", ", a"), 63, None),
            (("SELECT ", " FROM t"), ("", "a", ", a"), 64, PAST),
            (
                ("SELECT a FROM t GROUP BY ", ""),
                ("", "a", ", a"),
                63,
                None,
            ),
            (
                ("SELECT a FROM t GROUP BY ", ""),
                ("", "a", ", a"),
                64,
                PAST,
            ),
            (
                ("SELECT a FROM t ORDER BY ", ""),
                ("", "a", ", a"),
                63,
                None,
            ),
            (
                ("SELECT a FROM t ORDER BY ", ""),
                ("", "a", ", a"),
                64,
                PAST,
            ),
            (
                (
                    "SELECT a FROM t, u JOIN v ON a CROSS JOIN w, x, y INNER JOIN z ON b",
                    ", s, r CROSS JOIN q, p JOIN o ON c",
                ),
                ONCE,
                0,
                None,
            ),
            (
                (
                    "SELECT a FROM t, u JOIN v ON a CROSS JOIN w, x, y INNER JOIN z ON b",
                    ", s, r CROSS JOIN q, p JOIN o ON c CROSS JOIN n",
                ),
                ONCE,
                0,
                PAST,
            ),
        ],
    ),
    (
        "at_most_64_columns",
        Parser::Query,
        &[
            (("SELECT a", " FROM t"), (", a", "", ""), 63, None),
            (("SELECT a", " FROM t"), (", a", "", ""), 64, PAST),
            // A text that is no query at all is refused as that.
            (
                ("SELECT a", " FROM t FROM"),
                (", a", "", ""),
                64,
                Some(Syntax { offset: 208 }),
            ),
        ],
    ),
];

// Bytes of names and of texts.
static BYTES: [Group; 4] = [
    (
        "names_of_63_bytes",
        Parser::Query,
        &[
            (("SELECT ", " FROM t"), ("", NAME, ""), 0, None),
            (
                ("SELECT ", "x FROM t"),
                ("", NAME, ""),
                0,
                Some(Syntax { offset: 7 }),
            ),
        ],
    ),
    (
        "at_most_65536_bytes",
        Parser::Query,
        &[
            (
                ("", ""),
                (" ", "", ""),
                65_536,
                Some(Syntax { offset: 65_536 }),
            ),
            (("", ""), (" ", "", ""), 65_537, PAST),
        ],
    ),
    // The 13 bytes of a statement and spaces after it.
    (
        "bytes_of_a_statement",
        Parser::Statement,
        &[
            (("CREATE ROLE a", ""), (" ", "", ""), 65_523, None),
            (("CREATE ROLE a", ""), (" ", "", ""), 65_524, PAST),
            (
                ("", ""),
                (" ", "", ""),
                65_536,
                Some(Syntax { offset: 65_536 }),
            ),
        ],
    ),
    // The 14 bytes of a schema and spaces after it.
    (
        "bytes_of_a_schema",
        Parser::Schema,
        &[
            (("CREATE ROLE a;", ""), (" ", "", ""), 1_048_562, None),
            (("CREATE ROLE a;", ""), (" ", "", ""), 1_048_563, PAST),
        ],
    ),
];

// Errors, and the limits that are passed before or after them.
static FIRST: [Group; 2] = [
    // Within 64 parentheses after SELECT, a token that the grammar does not have there.
    (
        "a_token_with_both_faults_is_no_limit",
        Parser::Query,
        &[
            (
                ("SELECT ", "(2"),
                ("(", "1", ""),
                64,
                Some(Syntax { offset: 72 }),
            ),
            (
                ("SELECT ", "NOT b"),
                ("(", "a = ", ""),
                64,
                Some(Syntax { offset: 75 }),
            ),
            (
                ("SELECT ", "CASE WHEN"),
                ("(", "a.", ""),
                64,
                Some(Syntax { offset: 73 }),
            ),
            (
                ("SELECT ", "CASE"),
                ("(", "a IS NULL ", ""),
                64,
                Some(Syntax { offset: 81 }),
            ),
            (
                ("SELECT ", "(1)"),
                ("(", "f", ""),
                64,
                Some(Syntax { offset: 72 }),
            ),
            (
                ("SELECT ", "NOT b"),
                ("(", "a BETWEEN ", ""),
                64,
                Some(Syntax { offset: 81 }),
            ),
        ],
    ),
    // A limit of tokens comes before a later error, one of parts after it.
    (
        "the_first_fault_decides",
        Parser::Query,
        &[
            (("SELECT ", " wrong"), ("(", "1", ""), 65, PAST),
            (("SELECT ", " wrong"), ("", "a", " + a"), 64, PAST),
            (
                ("SELECT a = b = c", ""),
                ("(", "1", ""),
                65,
                Some(Syntax { offset: 13 }),
            ),
            (
                ("SELECT a FROM ", ";"),
                ("", "a", ", a"),
                8,
                Some(Syntax { offset: 39 }),
            ),
        ],
    ),
];

fn push_times(text: &mut String, part: &str, many: usize) -> Result<(), AllocError> {
    for _ in 0..many {
        text.push_str(part)?;
    }
    Ok(())
}

fn push_row(text: &mut String, row: &Row) -> Result<(), AllocError> {
    let ((before, after), (open, inner, close), many, _) = row;
    text.push_str(before)?;
    push_times(text, open, *many)?;
    text.push_str(inner)?;
    push_times(text, close, *many)?;
    text.push_str(after)
}

fn built(alloc: Global, row: &Row) -> Result<String, AllocError> {
    let mut text = String::new(alloc);
    push_row(&mut text, row)?;
    Ok(text)
}

fn query_refusal(alloc: Global, text: &str) -> Option<Failure<ParseError>> {
    parse_query(alloc, text).err()
}

fn statement_refusal(alloc: Global, text: &str) -> Option<Failure<ParseError>> {
    parse_statement(alloc, text).err()
}

fn schema_refusal(alloc: Global, text: &str) -> Option<Failure<ParseError>> {
    parse_schema(alloc, text).err()
}

fn refusal(alloc: Global, parser: &Parser, text: &str) -> Option<Failure<ParseError>> {
    match parser {
        Parser::Query => query_refusal(alloc, text),
        Parser::Statement => statement_refusal(alloc, text),
        Parser::Schema => schema_refusal(alloc, text),
    }
}

fn refused(rt: &(impl Abort + AllocGlobal), name: &str, parser: &Parser, row: &Row) {
    match built(rt.alloc(), row) {
        Ok(text) => {
            let found = refusal(rt.alloc(), parser, text.as_str());
            let want = row.3.map(|error| Failure::Error(error));
            same(rt, &found, &want, name, &text.as_str());
        }
        Err(_) => panic!(rt; "{name}: out of memory"),
    }
}

fn all_refused(rt: &(impl Abort + AllocGlobal), group: &Group) {
    let (name, parser, rows) = group;
    for row in *rows {
        refused(rt, name, parser, row);
    }
}

fn refuse(rt: &(impl Abort + AllocGlobal), groups: &[Group]) {
    for group in groups {
        all_refused(rt, group);
    }
}

fn nesting() -> &'static [Group] {
    &NESTING
}

fn runs() -> &'static [Group] {
    &RUNS
}

fn bytes() -> &'static [Group] {
    &BYTES
}

fn first() -> &'static [Group] {
    &FIRST
}

// Four times 64 parentheses, each closed before the next.
fn closed_levels(alloc: Global) -> Result<String, AllocError> {
    let deep = built(alloc, &(("", ""), ("(", "1", ")"), 64, None))?;
    format!(in alloc; "SELECT {deep} + {deep} FROM t WHERE {deep} = {deep}")
}

#[test]
fn nesting_runs_and_lists_are_limited(rt: HostRuntime) -> Result<(), Fail> {
    refuse(&rt, nesting());
    refuse(&rt, runs());
    let text = closed_levels(rt.alloc())?;
    let found = refusal(rt.alloc(), &Parser::Query, text.as_str());
    let name = "a_closed_level_does_not_count";
    same(&rt, &found, &None, name, &text.as_str());
    Ok(())
}

fn byte_count(alloc: Global, before: &str, spaces: usize) -> Result<usize, AllocError> {
    let mut text = String::from_str(alloc, before)?;
    push_times(&mut text, " ", spaces)?;
    Ok(text.len())
}

fn has_bytes(rt: &(impl Abort + AllocGlobal), before: &str, spaces: usize, want: usize) {
    let found = byte_count(rt.alloc(), before, spaces).ok();
    same(rt, &found, &Some(want), "bytes", &before);
}

#[test]
fn bytes_of_names_and_texts_are_limited(rt: HostRuntime) {
    has_bytes(&rt, NAME, 0, 63);
    has_bytes(&rt, "CREATE ROLE a", 65_523, 65_536);
    has_bytes(&rt, "CREATE ROLE a;", 1_048_562, 1_048_576);
    refuse(&rt, bytes());
}

#[test]
fn first_fault_decides_between_limit_and_grammar(rt: HostRuntime) {
    refuse(&rt, first());
}
