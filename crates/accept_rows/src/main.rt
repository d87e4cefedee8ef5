//! A program that runs the files of worked rows that its command line names. It prints a line for each: that it passed, or how it
//! failed. Its status is 0 where there is a file and all passed. crates/fixture_scripts/src/scripts.rt describes the files. A file of
//! the folder `wrong` has a row that is wrong: it passes where the run finds it, and its line says what was found.
#![tactic(auto)]

use fixture_scripts::run_script;
use memory::Failure;
use std::alloc::AllocError;
use std::process::ExitCode;
use std::{env, fs};

// The words of the command line, of which the first is the program's name.
fn command_words(rt: &HostRuntime) -> Result<Vec<String>, AllocError> {
    let Ok(args) = env::args(rt) else {
        return Err(AllocError);
    };
    args.collect(rt.alloc())
}

// Runs the script of a file and prints its line. It is true where the script passed and the line was printed.
fn script_passes(rt: &HostRuntime, path: &str, script: &str) -> bool {
    match run_script(rt.alloc(), script) {
        Ok(()) => {
            let printed = println!(rt; "{path}: passed");
            printed.is_ok()
        }
        Err(Failure::Error(mismatch)) => {
            let _ = println!(rt; "{path}: FAILED: {mismatch:?}");
            false
        }
        Err(Failure::OutOfMemory) => {
            let _ = println!(rt; "{path}: FAILED: out of memory");
            false
        }
    }
}

// The same of a script with a wrong row, which has to be found.
fn wrong_row_is_found(rt: &HostRuntime, path: &str, script: &str) -> bool {
    match run_script(rt.alloc(), script) {
        Ok(()) => {
            let _ = println!(rt; "{path}: FAILED: its wrong row is not found");
            false
        }
        Err(failure) => {
            let printed = println!(rt; "{path}: found {failure:?}");
            printed.is_ok()
        }
    }
}

// The same of a path.
fn file_passes(rt: &HostRuntime, path: &str) -> bool {
    match fs::read_to_string(rt, path) {
        Ok(script) if path.starts_with("wrong/") => wrong_row_is_found(rt, path, script.as_str()),
        Ok(script) => script_passes(rt, path, script.as_str()),
        Err(_) => {
            let _ = println!(rt; "{path}: FAILED: the file cannot be read");
            false
        }
    }
}

// Runs each file, also after one that failed.
fn files_pass(rt: &HostRuntime, paths: &[String]) -> bool {
    let mut pass = true;
    for path in paths {
        let passes = file_passes(rt, path.as_str());
        pass = pass && passes;
    }
    pass
}

// Runs the files of the command line, which has to name one.
fn all_pass(rt: &HostRuntime, words: &[String]) -> bool {
    match words {
        [_, paths @ ..] if !paths.is_empty() => files_pass(rt, paths),
        _ => {
            let _ = eprintln!(rt; "usage: accept_rows FILE..");
            false
        }
    }
}

fn main(rt: HostRuntime) -> ExitCode {
    let Ok(words) = command_words(&rt) else {
        return ExitCode::FAILURE;
    };
    if all_pass(&rt, words.as_slice()) {
        ExitCode::SUCCESS
    } else {
        ExitCode::FAILURE
    }
}
