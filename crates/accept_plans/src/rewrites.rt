//! The written term of a query, and the term after steps, or the first step that is refused.

use crate::queries::query_text;
use crate::rows::fields;
use crate::steps::step_of;
use crate::term_texts::show_term;
use access::frame;
use algebra::{Reason, apply};
use catalog::Catalog;
use fixtures::{Printer, sales};
use memory::Failure;
use resolve::{Bound, bind};
use row_ast::Query;
use row_terms::{Term, written};
use std::alloc::{AllocError, Global};
use std::process::Abort;
use std::test::Fail;
use syntax::parse_query;
use tuples::Guard;

// Each line has a role, a query or its name, steps, and the term after them; or the number of the step that is refused, with
// its reason: 2 the path leads to no node, 3 the rule does not fit, 4 its condition fails.
const ROWS: &str = "alice | ONE |  | [(0.0 = 3)] G0 R0
root | PAIR |  | [(0.0 = 1)] (G0 R0 * G1 R1)
root | THREE |  | ((G0 R0 * G1 R1) * G2 R2)
root | BOTH |  | [(0.1 = 'bob')] [(0.0 = 3)] G0 R0
root | SELECT id FROM deal WHERE amount / parts > 1 AND id = 3 |  | [(0.0 = 3)] G0 R0
root | SELECT a.id FROM deal a JOIN deal b ON a.id = b.id WHERE a.id > 1 |  | [(0.0 > 1)] [(0.0 = 1.0)] (G0 R0 * G1 R1)
root | BOTH | 2 ., 1 . | [(0.1 = 'bob')] [(0.0 = 3)] G0 R0
root | SELECT id FROM deal WHERE id = 1 OR id = 2 AND owner = 'a' | 1 . | 1: 4
root | BOTH | 1 . | 1: 4
root | BOTH | 1 00 | 1: 3
root | BOTH | 1- . | 1: 3
root | SELECT id FROM deal WHERE id = 3 AND owner = 'a' AND parts = 4 | 2 ., 2 ., 1 . | [AND[(0.1 = 'a'), (0.4 = 4)]] [(0.0 = 3)] G0 R0
root | BOTH | 2 . | [AND[(0.0 = 3), (0.1 = 'bob')]] G0 R0
root | BOTH | 2 0 | 1: 3
root | BOTH | 2- . | 1: 3
root | SELECT id FROM deal WHERE id = 3 AND owner = 'a' AND parts = 4 | 2 ., 2 . | [AND[(0.0 = 3), (0.1 = 'a'), (0.4 = 4)]] G0 R0
root | SELECT id FROM deal WHERE id = 3 AND owner = 'a' AND parts = 4 | 2 0, 2 . | [AND[(0.0 = 3), (0.1 = 'a'), (0.4 = 4)]] G0 R0
root | ONE | 10- . 0, 2 ., 10- . 0, 2 . | [AND[(0.0 = 3), (0.0 = 3), (0.0 = 3), (0.0 = 3)]] G0 R0
root | ONE | 10- . 0, 2 ., 10- . 0, 2 ., 10- . 0, 2 ., 10- . 0, 2 ., 10- . 0, 2 ., 10- . 0, 2 . | [AND[(0.0 = 3), (0.0 = 3), (0.0 = 3), (0.0 = 3), (0.0 = 3), (0.0 = 3), (0.0 = 3), (0.0 = 3), (0.0 = 3), (0.0 = 3), (0.0 = 3), (0.0 = 3), (0.0 = 3), (0.0 = 3), (0.0 = 3), (0.0 = 3), (0.0 = 3), (0.0 = 3), (0.0 = 3), (0.0 = 3), (0.0 = 3), (0.0 = 3), (0.0 = 3), (0.0 = 3), (0.0 = 3), (0.0 = 3), (0.0 = 3), (0.0 = 3), (0.0 = 3), (0.0 = 3), (0.0 = 3), (0.0 = 3), (0.0 = 3), (0.0 = 3), (0.0 = 3), (0.0 = 3), (0.0 = 3), (0.0 = 3), (0.0 = 3), (0.0 = 3), (0.0 = 3), (0.0 = 3), (0.0 = 3), (0.0 = 3), (0.0 = 3), (0.0 = 3), (0.0 = 3), (0.0 = 3), (0.0 = 3), (0.0 = 3), (0.0 = 3), (0.0 = 3), (0.0 = 3), (0.0 = 3), (0.0 = 3), (0.0 = 3), (0.0 = 3), (0.0 = 3), (0.0 = 3), (0.0 = 3), (0.0 = 3), (0.0 = 3), (0.0 = 3), (0.0 = 3)]] G0 R0
root | ONE | 10- . 0, 2 ., 10- . 0, 2 ., 10- . 0, 2 ., 10- . 0, 2 ., 10- . 0, 2 ., 10- . 0, 2 ., 10- . 0, 2 . | 14: 4
root | BOTH | 3 . | [(0.0 = 3)] [(0.1 = 'bob')] G0 R0
root | BOTH | 3 ., 3 . | [(0.1 = 'bob')] [(0.0 = 3)] G0 R0
root | BOTH | 3 0 | 1: 3
root | BOTH | 3- . | 1: 3
root | PAIR | 4 . | ([(0.0 = 1)] G0 R0 * G1 R1)
root | PAIR | 4 ., 4- . | [(0.0 = 1)] (G0 R0 * G1 R1)
root | PAIR | 4 0 | 1: 3
root | PAIR | 4- . | 1: 3
root | PAIR | 4- 0 | 1: 3
root | RIGHT | 4 . | 1: 4
root | SELECT deal.id FROM deal, region WHERE deal.region = region.id | 4 . | 1: 4
root | RIGHT | 5 . | (G0 R0 * [(1.0 = 1)] G1 R1)
root | RIGHT | 5 ., 5- . | [(1.0 = 1)] (G0 R0 * G1 R1)
root | RIGHT | 5 0 | 1: 3
root | RIGHT | 5- 0 | 1: 3
root | PAIR | 5 . | 1: 4
root | SELECT deal.id FROM deal, region WHERE deal.region = region.id | 5 . | 1: 4
root | PAIR | 6 0 | [(0.0 = 1)] (G1 R1 * G0 R0)
root | PAIR | 6 0, 6 0 | [(0.0 = 1)] (G0 R0 * G1 R1)
root | PAIR | 6 . | 1: 3
root | PAIR | 6- 0 | 1: 3
root | THREE | 7 . | ((G0 R0 * G2 R2) * G1 R1)
root | THREE | 7 0 | 1: 3
root | THREE | 6 ., 7 . | 2: 3
root | THREE | 7- . | 1: 3
alice | ONE | 8 . | G0 [(0.0 = 3)] R0
alice | ONE | 8 ., 8- . | [(0.0 = 3)] G0 R0
alice | ONE | 8 0 | 1: 3
alice | ONE | 8- . | 1: 3
root | ONE | 9 0 | [(0.0 = 3)] R0
audit | ONE | 9 0 | [(0.0 = 3)] R0
alice | ONE | 9 0 | 1: 4
guest | ONE | 9 0 | 1: 4
alice | PAIR | 9 01 | [(0.0 = 1)] (G0 R0 * R1)
alice | PAIR | 9 00 | 1: 4
alice | SELECT a.id FROM deal a, deal b WHERE a.id = b.id | 9 01 | 1: 4
root | SELECT a.id FROM deal a, deal b WHERE a.id = b.id | 9 01, 9 00 | [(0.0 = 1.0)] (R0 * R1)
root | ONE | 9 . | 1: 3
root | ONE | 9 00 | 1: 3
root | ONE | 9 000 | 1: 2
root | ONE | 9 1 | 1: 2
root | ONE | 9 01 | 1: 2
root | ONE | 9 0, 9- 0 1 | [(0.0 = 3)] G0 R0
root | ONE | 9 0, 9- . 1 | G0 [(0.0 = 3)] R0
root | ONE | 9- 0 2 | 1: 4
root | ONE | 9- 0 0 | 1: 4
root | PAIR | 9- 0 1 | 1: 4
root | PAIR | 9- 00 2 | 1: 4
alice | ONE | 9- 0 1 | 1: 4
root | ONE | 10- . 0 | [(0.0 = 3)] [(0.0 = 3)] G0 R0
root | ONE | 10- . 0, 10 . | [(0.0 = 3)] G0 R0
root | BOTH | 10- . 1 | [(0.0 = 3)] [(0.1 = 'bob')] [(0.0 = 3)] G0 R0
root | BOTH | 10- . 1, 10 . | [(0.1 = 'bob')] [(0.0 = 3)] G0 R0
root | ONE | 10- . 1 | 1: 4
root | ONE | 10- 0 0 | 1: 4
root | ONE | 10 . | 1: 4
root | ONE | 10 0 | 1: 3
root | SELECT id FROM deal WHERE id = 3 AND 3 = id | 10 . | 1: 4
root | CHAIN |  | [(1.0 = 2.0)] [(0.2 = 1.0)] ((G0 R0 * G1 R1) * G2 R2)
root | CHAIN | 11 . 0 1 | [(2.0 = 0.2)] [(1.0 = 2.0)] [(0.2 = 1.0)] ((G0 R0 * G1 R1) * G2 R2)
root | CHAIN | 11 . 1 0 | [(0.2 = 2.0)] [(1.0 = 2.0)] [(0.2 = 1.0)] ((G0 R0 * G1 R1) * G2 R2)
root | CHAIN | 11 . 0 0 | [(2.0 = 2.0)] [(1.0 = 2.0)] [(0.2 = 1.0)] ((G0 R0 * G1 R1) * G2 R2)
root | CHAIN | 11 . 0 1, 11- . 0 1 | [(1.0 = 2.0)] [(0.2 = 1.0)] ((G0 R0 * G1 R1) * G2 R2)
root | CHAIN | 11 . 0 1, 11- . 1 0 | 2: 4
root | CHAIN | 11 . 0 2 | 1: 4
root | CHAIN | 11- . 0 1 | 1: 4
root | CHAIN | 11- 00 0 1 | 1: 3
root | CHAIN | 11 00 0 1 | 1: 4
root | VALUE | 11 . 0 1 | 1: 4
root | SELECT a.id FROM deal a, deal b WHERE a.id = b.id AND a.parts = b.amount | 11 . 0 1 | 1: 4
root | VALUE | 12 . 1 0 | [(1.0 = 2)] [(0.2 = 2)] [(0.2 = 1.0)] (G0 R0 * G1 R1)
root | VALUE | 12 . 1 0, 12- . 1 0 | [(0.2 = 2)] [(0.2 = 1.0)] (G0 R0 * G1 R1)
root | VALUE | 12 . 0 1 | 1: 4
root | VALUE | 12 . 0 0 | 1: 4
root | VALUE | 12- . 0 1 | 1: 4
root | SELECT deal.id FROM deal, region WHERE deal.region = region.id AND 2 = region.id | 12 . 1 0 | [(0.2 = 2)] [(2 = 1.0)] [(0.2 = 1.0)] (G0 R0 * G1 R1)
root | SELECT deal.id FROM deal, region WHERE deal.region = region.id AND deal.region = NULL | 12 . 1 0 | 1: 4
root | SELECT deal.id FROM deal, region WHERE deal.region = region.id AND deal.id = 2 | 12 . 1 0 | 1: 4
root | SELECT id FROM deal WHERE NOT (id < 3 OR owner = 'bob') | 13 . | [AND[(0.0 >= 3), (0.1 <> 'bob')]] G0 R0
root | SELECT id FROM deal WHERE NOT (id < 3 AND NOT owner IS NULL) | 13 . | [OR[(0.0 >= 3), (0.1 IS NULL)]] G0 R0
root | ONE | 13 0 | 1: 3
root | ONE | 13- . | 1: 3
root | SELECT id FROM deal WHERE id = 3 AND 1 = 1 | 14 . | [TRUE] [(0.0 = 3)] G0 R0
root | SELECT id FROM deal WHERE id = 3 AND 1 = 1 | 14 0 | [(1 = 1)] [(0.0 = 3)] G0 R0
root | SELECT id FROM deal WHERE owner = CURRENT_USER OR 1 = 2 | 14 . | [OR[(0.1 = CURRENT_USER), FALSE]] G0 R0
root | ONE | 14 0 | 1: 3
root | SELECT id FROM deal WHERE id = 3 AND 1 = 2 | 14 ., 15 . | E0
root | SELECT id FROM deal WHERE id = 3 AND 1 = NULL | 14 ., 15 . | E0
root | NEVER | 14 ., 15 . | E01
root | SELECT id FROM deal WHERE id = 3 AND 1 = 2 | 15 . | 1: 4
root | SELECT id FROM deal WHERE id = 3 AND 1 = 1 | 14 ., 15 . | 2: 4
root | ONE | 15 0 | 1: 3
root | NEVER | 14 ., 4 ., 15 0 | (E0 * G1 R1)
root | NEVER | 14 ., 4 ., 15 0, 16 . | E01
root | NEVER | 14 ., 5 ., 15 1, 16 . | E01
root | SELECT deal.id FROM deal, region WHERE deal.id = 1 AND 1 = 2 | 3 ., 14 0, 15 0, 16 . | E01
root | SELECT id FROM deal WHERE 1 = 2 | 14 ., 8 ., 15 0, 16 . | E0
root | NEVER | 16 . | 1: 3
root | NEVER | 16 0 | 1: 3
root | SELECT id FROM deal WHERE id = 3 AND owner = 'a' OR id = 3 AND owner = 'b' | 17 . | [AND[(0.0 = 3), OR[(0.1 = 'a'), (0.1 = 'b')]]] G0 R0
root | SELECT id FROM deal WHERE id = 3 AND owner = 'a' OR id = 3 AND parts = 1 AND owner = 'b' | 17 . | [AND[(0.0 = 3), OR[(0.1 = 'a'), AND[(0.4 = 1), (0.1 = 'b')]]]] G0 R0
root | SELECT id FROM deal WHERE id = 3 AND owner = 'a' OR id = 4 AND owner = 'b' | 17 . | 1: 4
root | SELECT id FROM deal WHERE id = 3 AND owner = 'a' OR id = 3 | 17 . | 1: 4
root | ONE | 17 . | 1: 4
root | ONE | 17 0 | 1: 3
root | SELECT id FROM deal WHERE id = id | 18 . | [(0.0 IS NOT NULL)] G0 R0
root | SELECT id FROM deal WHERE id = amount | 18 . | 1: 4
root | SELECT id FROM deal WHERE id = id | 18 0 | 1: 3
root | CHAIN | 11 . 0 0, 18 . | [(2.0 IS NOT NULL)] [(1.0 = 2.0)] [(0.2 = 1.0)] ((G0 R0 * G1 R1) * G2 R2)
root | LEFT |  | [(1.1 = 'north')] (G0 R0 + [(0.2 = 1.0)] G1 R1)
root | LEFT | 19 . | [(1.1 = 'north')] [(0.2 = 1.0)] (G0 R0 * G1 R1)
root | LEFT | 19 ., 19 . | 2: 3
root | LEFT | 19- . | 1: 3
root | LEFT | 19 0 | 1: 3
root | LEFT | 19 . 1 | 1: 3
root | LEFT | 20 . | 1: 4
root | LEFT | 20 0 | 1: 3
root | LEFT | 4 . | 1: 3
root | LEFT | 5 . | 1: 3
root | LEFT | 6 0 | 1: 3
root | LEFT | 16 . | 1: 3
root | LEFT | 9 00 | [(1.1 = 'north')] (R0 + [(0.2 = 1.0)] G1 R1)
root | LEFT | 9 01 | [(1.1 = 'north')] (G0 R0 + [(0.2 = 1.0)] R1)
root | LEFT | 9 01, 9- 01 2 | [(1.1 = 'north')] (G0 R0 + [(0.2 = 1.0)] G1 R1)
root | LEFT | 9 010 | 1: 3
root | LEFT | 9 0101 | 1: 2
root | SELECT deal.id FROM deal LEFT JOIN region ON deal.region = region.id WHERE deal.id = 1 | 19 . | 1: 4
root | SELECT deal.id FROM deal LEFT JOIN region ON deal.region = region.id WHERE deal.id = 1 | 20 . | ([(0.0 = 1)] G0 R0 + [(0.2 = 1.0)] G1 R1)
root | SELECT deal.id FROM deal LEFT JOIN region ON deal.region = region.id WHERE deal.id = 1 | 20 ., 20- . | [(0.0 = 1)] (G0 R0 + [(0.2 = 1.0)] G1 R1)
root | SELECT deal.id FROM deal LEFT JOIN region ON deal.region = region.id WHERE deal.id = 1 | 20- . | 1: 3
root | SELECT deal.id FROM deal LEFT JOIN region ON deal.region = region.id WHERE deal.id = 1 | 20- 0 | 1: 3
root | SELECT deal.id FROM deal LEFT JOIN region ON deal.region = region.id WHERE 1 = region.id | 19 . | [(1 = 1.0)] [(0.2 = 1.0)] (G0 R0 * G1 R1)
root | SELECT deal.id FROM deal LEFT JOIN region ON deal.region = region.id WHERE region.id < deal.id | 19 . | [(1.0 < 0.0)] [(0.2 = 1.0)] (G0 R0 * G1 R1)
root | SELECT deal.id FROM deal LEFT JOIN region ON deal.region = region.id WHERE region.name IS NULL | 19 . | 1: 4
root | SELECT deal.id FROM deal LEFT JOIN region ON deal.region = region.id WHERE region.name IS NOT NULL | 19 . | [(1.1 IS NOT NULL)] [(0.2 = 1.0)] (G0 R0 * G1 R1)
root | SELECT deal.id FROM deal LEFT JOIN region ON deal.region = region.id WHERE deal.owner IS NOT NULL | 19 . | 1: 4
root | SELECT deal.id FROM deal LEFT JOIN region ON deal.region = region.id WHERE region.id NOT IN (1, 2) | 19 . | 1: 4
root | SELECT deal.id FROM deal LEFT JOIN region ON deal.region = region.id WHERE region.id BETWEEN 1 AND 2 | 19 . | 1: 4
root | SELECT deal.id FROM deal LEFT JOIN region ON deal.region = region.id WHERE region.id = 1 OR region.id = 2 | 19 . | 1: 4
root | SELECT deal.id FROM deal LEFT JOIN region ON deal.region = region.id WHERE NOT region.id <> 1 | 19 . | 1: 4
root | SELECT deal.id FROM deal LEFT JOIN region ON deal.region = region.id WHERE NOT region.id <> 1 | 13 ., 19 . | [(1.0 = 1)] [(0.2 = 1.0)] (G0 R0 * G1 R1)
root | SELECT a.id FROM deal a LEFT JOIN region r ON a.region = r.id LEFT JOIN region s ON r.id = s.id WHERE r.id = 1 |  | [(1.0 = 1)] ((G0 R0 + [(0.2 = 1.0)] G1 R1) + [(1.0 = 2.0)] G2 R2)
root | SELECT a.id FROM deal a LEFT JOIN region r ON a.region = r.id LEFT JOIN region s ON r.id = s.id WHERE r.id = 1 | 19 . | 1: 4
root | SELECT a.id FROM deal a LEFT JOIN region r ON a.region = r.id LEFT JOIN region s ON r.id = s.id WHERE r.id = 1 | 20 ., 19 0 | ([(1.0 = 1)] [(0.2 = 1.0)] (G0 R0 * G1 R1) + [(1.0 = 2.0)] G2 R2)
root | SELECT a.id FROM deal a LEFT JOIN region r ON a.region = r.id LEFT JOIN region s ON r.id = s.id WHERE s.id = 1 | 19 . | [(2.0 = 1)] [(1.0 = 2.0)] ((G0 R0 + [(0.2 = 1.0)] G1 R1) * G2 R2)
root | SELECT a.id FROM deal a LEFT JOIN region r ON a.region = r.id LEFT JOIN region s ON r.id = s.id WHERE s.id = r.id | 20 . | 1: 4
root | SELECT a.id FROM deal a, region r LEFT JOIN region s ON r.id = s.id |  | ((G0 R0 * G1 R1) + [(1.0 = 2.0)] G2 R2)
root | SELECT a.id FROM deal a, region r LEFT JOIN region s ON r.id = s.id | 6 0 | ((G1 R1 * G0 R0) + [(1.0 = 2.0)] G2 R2)
root | SELECT a.id FROM deal a, region r LEFT JOIN region s ON r.id = s.id | 6 . | 1: 3
root | SELECT a.id FROM deal a, region r LEFT JOIN region s ON r.id = s.id WHERE a.id = 1 | 6 00 | [(0.0 = 1)] ((G1 R1 * G0 R0) + [(1.0 = 2.0)] G2 R2)
root | ONE | 0 . | 1: 3
root | ONE | 19 . | 1: 3
root | ONE | 20 . | 1: 3
root | ONE | 21 . | 1: 3
root | ONE | 21 000 | 1: 2
root | ONE | 9 0 1 | 1: 3
root | ONE | 9- 0 | 1: 3
root | ONE | 10- . | 1: 3
root | CHAIN | 11 . 0 | 1: 3
root | CHAIN | 11 . 0 1 0 | 1: 3
root | CHAIN | 12 . | 1: 3
";

fn reason_number(reason: Reason) -> u8 {
    match reason {
        Reason::NoNode => 2,
        Reason::Misfit => 3,
        Reason::Unmet => 4,
    }
}

fn term_text(alloc: Global, term: &Term<Global>) -> Result<String, AllocError> {
    let mut out = Printer::new(alloc, false);
    show_term(term, &mut out)?;
    Ok(out.text)
}

// The term after a step that has to be one, or its reason.
fn stepped(
    rt: &(impl Abort + AllocGlobal),
    frame: &[Guard<Global>],
    term: Term<Global>,
    text: &str,
) -> Result<Term<Global>, Failure<Reason>> {
    match step_of(rt.alloc(), text)? {
        Some(step) => apply(rt.alloc(), frame, term, &step),
        None => panic!(rt; "{text}: no step"),
    }
}

// The term after the steps of a text, or the number and the reason of the first that is refused.
fn rewritten(
    rt: &(impl Abort + AllocGlobal),
    frame: &[Guard<Global>],
    term: Term<Global>,
    steps: &str,
) -> Result<Term<Global>, Failure<(u64, Reason)>> {
    let mut term = term;
    let mut line: u64 = 0;
    if steps.is_empty() {
        return Ok(term);
    }
    for text in steps.split(", ") {
        line = line.wrapping_add(1);
        match stepped(rt, frame, term, text) {
            Ok(next) => term = next,
            Err(Failure::Error(reason)) => return Err(Failure::Error((line, reason))),
            Err(Failure::OutOfMemory) => return Err(Failure::OutOfMemory),
        }
    }
    Ok(term)
}

/// The term after the steps of a text, or the number of the first that is refused with its reason, as a text.
pub fn rewritten_text(
    rt: &(impl Abort + AllocGlobal),
    frame: &[Guard<Global>],
    term: Term<Global>,
    steps: &str,
) -> Result<String, AllocError> {
    match rewritten(rt, frame, term, steps) {
        Ok(term) => term_text(rt.alloc(), &term),
        Err(Failure::Error((line, reason))) => {
            let reason = reason_number(reason);
            format!(in rt.alloc(); "{line}: {reason}")
        }
        Err(Failure::OutOfMemory) => Err(AllocError),
    }
}

fn text_of_bound(
    rt: &(impl Abort + AllocGlobal),
    catalog: &Catalog<Global>,
    role: &str,
    bound: &Bound<'_, Global>,
    steps: &str,
) -> Result<String, AllocError> {
    let entries = bound.entries.as_slice();
    let frame = frame(rt.alloc(), catalog, role, entries)?;
    let term = written(rt.alloc(), entries.len(), &bound.query)?;
    rewritten_text(rt, frame.as_slice(), term, steps)
}

fn text_of_query(
    rt: &(impl Abort + AllocGlobal),
    catalog: &Catalog<Global>,
    role: &str,
    query: &Query<Global>,
    steps: &str,
) -> Result<String, AllocError> {
    match bind(rt.alloc(), catalog, query) {
        Ok(bound) => text_of_bound(rt, catalog, role, &bound, steps),
        Err(_) => panic!(rt; "not bound"),
    }
}

// The text that the steps of a row make.
fn made_text(
    rt: &(impl Abort + AllocGlobal),
    catalog: &Catalog<Global>,
    role: &str,
    query: &str,
    steps: &str,
) -> Result<String, AllocError> {
    match parse_query(rt.alloc(), query_text(query)) {
        Ok(query) => text_of_query(rt, catalog, role, &query, steps),
        Err(_) => panic!(rt; "{query}"),
    }
}

fn takes(
    rt: &(impl Abort + AllocGlobal),
    catalog: &Catalog<Global>,
    line: &str,
) -> Result<(), AllocError> {
    let ([role, query, steps, want], _) = fields(line);
    let made = made_text(rt, catalog, role, query, steps)?;
    assert_eq!(rt; made.as_str(), want, "{line}");
    Ok(())
}

#[test]
fn steps_rewrite_terms_as_their_rules_say(rt: HostRuntime) -> Result<(), Fail> {
    let Ok(store) = sales(rt.alloc()) else {
        panic!(rt; "no store");
    };
    assert!(rt; !ROWS.is_empty());
    for line in ROWS.lines() {
        takes(&rt, store.catalog(), line)?;
    }
    Ok(())
}
