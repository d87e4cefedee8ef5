//! The trees of texts, written as texts and compared with the wanted ones.

use crate::compared::same;
use fixtures::{Printer, show_query, show_statement};
use memory::{Failure, Items};
use row_ast::{Query, Statement};
use std::alloc::{AllocError, Global};
use std::process::Abort;
use syntax::ParseError;

/// A tree that is written as a text.
pub trait Shown {
    /// Writes the tree.
    fn show(&self, out: &mut Printer) -> Result<(), AllocError>;
}

impl Shown for Query<Global> {
    fn show(&self, out: &mut Printer) -> Result<(), AllocError> {
        show_query(self, out)
    }
}

impl Shown for Statement<Global> {
    fn show(&self, out: &mut Printer) -> Result<(), AllocError> {
        show_statement(self, out)
    }
}

// A statement, and the semicolon after it.
fn show_ended(statement: &Statement<Global>, out: &mut Printer) -> Result<(), AllocError> {
    show_statement(statement, out)?;
    out.word(";")
}

impl Shown for Items<Statement<Global>, Global> {
    fn show(&self, out: &mut Printer) -> Result<(), AllocError> {
        for statement in self.as_slice() {
            show_ended(statement, out)?;
        }
        Ok(())
    }
}

fn written<T: Shown>(alloc: Global, placed: bool, tree: &T) -> Result<String, Failure<ParseError>> {
    let mut out = Printer::new(alloc, placed);
    tree.show(&mut out)?;
    Ok(out.text)
}

fn read_text<T: Shown + Drop>(
    alloc: Global,
    placed: bool,
    read: Result<T, Failure<ParseError>>,
) -> Result<String, Failure<ParseError>> {
    match read {
        Ok(tree) => written(alloc, placed, &tree),
        Err(error) => Err(error),
    }
}

/// The tree that was read is written as the wanted text, or the text is refused at the wanted offset.
pub fn is_read<T: Shown + Drop>(
    rt: &(impl Abort + AllocGlobal),
    placed: bool,
    read: Result<T, Failure<ParseError>>,
    want: Result<&str, u32>,
    row: (&str, &str),
) {
    let (name, text) = row;
    match read_text(rt.alloc(), placed, read) {
        Ok(found) => same(rt, &Ok(found.as_str()), &want, name, &text),
        Err(Failure::Error(ParseError::Syntax { offset })) => {
            same(rt, &Err(offset), &want, name, &text);
        }
        Err(error) => panic!(rt; "{name}: {text}: {error:?}"),
    }
}
