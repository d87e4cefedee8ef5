//! The program `rowplan`: answers queries over a schema text and comma-separated tables.
#![tactic(auto)]

mod failure;
mod files;
mod frames;
mod rights;
mod script;

use command_line::{
    Format, PlanFormat, QueryArguments, QueryText, Request, SessionArguments, VerifyArguments,
    read_words, unread_words,
};
use diagnostics::codes_text;
use failure::{ProgramError, print_error, report_failure};
use files::{read_bytes, read_text, store_of};
use frames::answer_frames;
use memory::Failure;
use output::{Output, write_whole};
use rights::{changes, matrix};
use script::{answer_input, answer_text};
use session_scripts::Core;
use setup::{
    Arguments, SchemaError, SetupError, Store, explain, explain_refusal, explain_schema,
    explain_tree, reply, reply_table, store_of_schema, verify,
};
use std::alloc::{AllocError, Global};
use std::process::ExitCode;
use std::{env, io};

// The text of the query.
fn query_text(
    rt: &HostRuntime,
    alloc: Global,
    text: QueryText<'_>,
) -> Result<String, Failure<SetupError<Global>>> {
    match text {
        QueryText::Given(text) => Ok(String::from_str(alloc, text)?),
        QueryText::File(path) => read_text(rt, alloc, path),
    }
}

// What is asked of a query: its rows, or its plan, each in a form.
#[derive(Clone, Copy)]
enum Asked {
    Rows(Format),
    Plan(PlanFormat),
}

// Writes the reply or the plan to standard output, the diagnostics of a refusal to standard error where they are asked for,
// and returns the status.
fn write_reply(
    rt: &HostRuntime,
    alloc: Global,
    store: &Store<Global>,
    asked: Asked,
    arguments: &Arguments<'_>,
    explains: bool,
) -> u8 {
    let mut out = Output {
        inner: io::writer(rt),
        failed: 0,
    };
    let status = match asked {
        Asked::Rows(Format::Csv) => reply(alloc, store, arguments, &mut out),
        Asked::Rows(Format::Table) => reply_table(alloc, store, arguments, &mut out),
        Asked::Plan(PlanFormat::Text) => {
            explain(alloc, store, arguments.role, arguments.text, &mut out)
        }
        Asked::Plan(PlanFormat::Tree) => {
            explain_tree(alloc, store, arguments.role, arguments.text, &mut out)
        }
    };
    if explains && (status == 3 || status == 4 || status == 6) {
        let mut error = Output {
            inner: rt.stderr(),
            failed: 0,
        };
        explain_refusal(alloc, store, arguments, &mut error);
    }
    status
}

// Answers or explains the query over a store, and returns the status.
fn answer(
    rt: &HostRuntime,
    alloc: Global,
    store: &Store<Global>,
    asked: Asked,
    words: &QueryArguments<'_>,
) -> Result<u8, Failure<SetupError<Global>>> {
    let text = query_text(rt, alloc, words.text)?;
    let arguments = Arguments {
        schema: words.schema,
        dir: words.dir,
        role: words.role,
        text: text.as_str(),
    };
    Ok(write_reply(rt, alloc, store, asked, &arguments, words.explain_refusal))
}

// Reports the error of a schema text with its diagnostics on standard error, and returns the status.
fn refuse_schema(rt: &HostRuntime, alloc: Global, schema: &str, error: SchemaError) -> u8 {
    let status = report_failure(rt, &Failure::Error(SetupError::Schema(error)));
    let mut out = Output {
        inner: rt.stderr(),
        failed: 0,
    };
    explain_schema(alloc, schema, error, &mut out);
    status
}

// Makes the store and answers or explains the query, and returns the status.
fn query(
    rt: &HostRuntime,
    alloc: Global,
    asked: Asked,
    words: &QueryArguments<'_>,
) -> Result<u8, Failure<SetupError<Global>>> {
    let schema = read_text(rt, alloc, words.schema)?;
    match store_of(rt, alloc, schema.as_str(), words.dir) {
        Ok(store) => answer(rt, alloc, &store, asked, words),
        Err(Failure::Error(SetupError::Schema(error))) if words.explain_refusal => {
            Ok(refuse_schema(rt, alloc, schema.as_str(), error))
        }
        Err(failure) => Err(failure),
    }
}

// Takes the events of a script, and writes the reply to each.
fn session(
    rt: &HostRuntime,
    alloc: Global,
    words: &SessionArguments<'_>,
) -> Result<(), ProgramError> {
    let schema = read_text(rt, alloc, words.schema)?;
    let store = store_of(rt, alloc, schema.as_str(), words.dir)?;
    let Ok(mut core) = Core::new(alloc, store) else {
        return Err(ProgramError::from(AllocError));
    };
    if words.frames {
        return answer_frames(rt, alloc, &mut core, words.script);
    }
    if words.script == "-" {
        return answer_input(rt, alloc, &mut core);
    }
    let script = read_text(rt, alloc, words.script)?;
    answer_text(rt, alloc, &mut core, script.as_str())
}

// Audits the plan, and returns the status of the audit.
fn audit(
    rt: &HostRuntime,
    alloc: Global,
    words: &VerifyArguments<'_>,
) -> Result<u8, Failure<SetupError<Global>>> {
    let schema = read_text(rt, alloc, words.schema)?;
    let store = store_of_schema(alloc, schema.as_str())?;
    let plan = read_bytes(rt, alloc, words.plan)?;
    let text = query_text(rt, alloc, words.text)?;
    let mut out = Output {
        inner: io::writer(rt),
        failed: 0,
    };
    Ok(verify(
        alloc,
        store.catalog(),
        words.role,
        text.as_str(),
        &plan,
        &mut out,
    ))
}

// Writes the codes with their meaning to standard output.
fn codes(rt: &HostRuntime, alloc: Global) -> Result<u8, AllocError> {
    let text = codes_text(alloc)?;
    let mut out = Output {
        inner: io::writer(rt),
        failed: 0,
    };
    match write_whole(&mut out, &text) {
        Ok(()) => Ok(0),
        Err(_) => Ok(8),
    }
}

// The words of the command line, of which the first is the program's name.
fn command_words(rt: &HostRuntime, alloc: Global) -> Result<Vec<String>, ProgramError> {
    match env::args(rt) {
        Ok(words) => Ok(words.collect(alloc)?),
        Err(error) => Err(ProgramError::CommandLine(unread_words(error.kind()))),
    }
}

fn texts_of<'a>(alloc: Global, words: &'a [String]) -> Result<Vec<&'a str>, AllocError> {
    let mut texts = Vec::new(alloc);
    for word in words {
        texts.push(word.as_str())?;
    }
    Ok(texts)
}

fn run(rt: &HostRuntime) -> Result<u8, ProgramError> {
    let alloc = rt.alloc();
    let words = command_words(rt, alloc)?;
    let texts = texts_of(alloc, words.as_slice())?;
    match read_words(alloc, texts.as_slice())? {
        Request::Query(arguments, format) => Ok(query(rt, alloc, Asked::Rows(format), &arguments)?),
        Request::Explain(arguments, format) => Ok(query(
            rt,
            alloc,
            Asked::Plan(format),
            &arguments,
        )?),
        Request::Verify(arguments) => Ok(audit(rt, alloc, &arguments)?),
        Request::Session(arguments) => {
            session(rt, alloc, &arguments)?;
            Ok(0)
        }
        Request::Matrix(arguments) => Ok(matrix(rt, alloc, &arguments)?),
        Request::Changes(arguments) => Ok(changes(rt, alloc, &arguments)?),
        Request::Codes => Ok(codes(rt, alloc)?),
    }
}

fn main(rt: HostRuntime) -> ExitCode {
    match run(&rt) {
        Ok(status) => ExitCode::from(status),
        Err(error) => ExitCode::from(print_error(&rt, &error)),
    }
}
