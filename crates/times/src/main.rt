//! A program that does the work of one part of the engine, for the scripts of bench to measure: `plan` searches the least code of a
//! query so many times, `run` joins two tables once by a code of its own, `ask` makes tables and asks so many texts of one query of them,
//! and `known` so many texts of a table of which a role sees few rows.
#![tactic(auto)]

mod asked_store;
mod asking;
mod join;
mod join_code;
mod join_run;
mod join_tables;
mod known;
mod numbers;
mod part;
mod search;
mod search_problem;
mod shape;
mod stop;
mod texts;

use part::Part;
use std::alloc::AllocError;
use std::env;
use std::process::ExitCode;
use stop::Stop;

// The words of the command line, of which the first is the program's name.
fn command_words(rt: &HostRuntime) -> Result<Vec<String>, AllocError> {
    let Ok(args) = env::args(rt) else {
        return Err(AllocError);
    };
    args.collect(rt.alloc())
}

// Does the work that the words say.
fn worked(rt: &HostRuntime, words: &[String]) -> Result<String, Stop> {
    let [_, name, words @ ..] = words else {
        return Err(Stop::Usage);
    };
    match Part::named(name.as_str()) {
        Some(part) => part.work(rt.alloc(), words),
        None => Err(Stop::Usage),
    }
}

fn run(rt: &HostRuntime) -> Result<(), Stop> {
    let words = command_words(rt)?;
    let line = worked(rt, &words)?;
    println!(rt; "{}", line.as_str())?;
    Ok(())
}

fn main(rt: HostRuntime) -> ExitCode {
    match run(&rt) {
        Ok(()) => ExitCode::SUCCESS,
        Err(stop) => {
            let _ = eprintln!(rt; "{}", stop.message());
            ExitCode::from(stop.status())
        }
    }
}
