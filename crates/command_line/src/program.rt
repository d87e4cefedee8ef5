//! The program's command, with its subcommands, their arguments and the help.
ghost use Rattle.std.specs.Prelude.{◌≡◌, ◌∷◌, [], IfOk, codes, fold};
ghost use Rattle.clap.specs.Words.{IsPlainArg, app_of, with_rule};
ghost use Rattle.command_line.specs.Building.{HasRule, HasShape, IsLocal, excluded_by, replaced_by};
ghost use Rattle.command_line.specs.Program.{alternative, flag, option, program, word};
ghost use Rattle.command_line.specs.Program.{query_rules, repeated_option, required_option, required_word};
ghost use Rattle.command_line.specs.Program.{changes_shape, codes_shape, explain_shape, matrix_shape};
ghost use Rattle.command_line.specs.Program.{query_shape, session_shape, verify_shape};

use clap::{Arg, ArgAction, Command};
use std::alloc::{AllocError, Global};

/// The version of the program.
const VERSION: &str = "0.1.0";

const EXAMPLE: &str =
    "Example, at the top of the repository:\n  rowplan query --schema examples/sales/schema.sql --dir examples/sales --role alice 'SELECT count(*) AS deals FROM deal'\n\nExit status: 0 answer, plan or whole script, 2 command line, 3 refused text, plan, line or frame, 4 denial, 5 fault, 6 schema, rows or unknown role, 7 memory, 8 input or output, 9 a change that opens something";

fn option<'a>(alloc: Global, name: &'a str, value: &'a str, help: &'a str) -> Arg<'a>
    ensures rule { HasRule result (option name.entry.now) }
    ensures plain { IsPlainArg result }
{
    Arg::new(alloc, name)
        .long(name)
        .value_name(value)
        .help(help)
        .action(ArgAction::Set)
}

fn repeated_option<'a>(alloc: Global, name: &'a str, value: &'a str, help: &'a str) -> Arg<'a>
    ensures { HasRule result (repeated_option name.entry.now) }
{
    Arg::new(alloc, name)
        .long(name)
        .value_name(value)
        .help(help)
        .action(ArgAction::Append)
}

fn flag<'a>(alloc: Global, name: &'a str, help: &'a str) -> Arg<'a>
    ensures { HasRule result (flag name.entry.now) }
{
    Arg::new(alloc, name)
        .long(name)
        .help(help)
        .action(ArgAction::SetTrue)
}

fn word<'a>(alloc: Global, name: &'a str, help: &'a str) -> Arg<'a>
    ensures rule { HasRule result (word name.entry.now) }
    ensures plain { IsPlainArg result }
{
    Arg::new(alloc, name).help(help).action(ArgAction::Set)
}

fn file_option<'a>(alloc: Global) -> Result<Arg<'a>, AllocError>
    ensures rule { IfOk result (λ a. HasRule a (alternative (option (codes "file")))) }
    ensures excludes { IfOk result (λ a. excluded_by a ≡ codes "TEXT" ∷ []) }
{
    let help = "A file with the query in place of TEXT, or - for standard input";
    option(alloc, "file", "FILE", help).conflicts_with("TEXT")
}

fn text_word<'a>(alloc: Global) -> Result<Arg<'a>, AllocError>
    ensures rule { IfOk result (λ a. HasRule a (alternative (word (codes "TEXT")))) }
    ensures replaced { IfOk result (λ a. replaced_by a ≡ codes "file" ∷ []) }
{
    let help = "The query; after -- where it starts with a minus";
    word(alloc, "TEXT", help).required_unless_present("file")
}

fn schema_option<'a>(alloc: Global) -> Arg<'a>
    ensures { HasRule result (required_option (codes "schema")) }
{
    let help = "The schema text, or - for standard input";
    option(alloc, "schema", "FILE", help).required(true)
}

fn dir_option<'a>(alloc: Global) -> Arg<'a>
    ensures { HasRule result (required_option (codes "dir")) }
{
    let help = "The folder with a file T.csv for each table T";
    option(alloc, "dir", "DIR", help).required(true)
}

fn role_option<'a>(alloc: Global) -> Arg<'a>
    ensures { HasRule result (required_option (codes "role")) }
{
    option(alloc, "role", "NAME", "The role that asks").required(true)
}

fn plan_option<'a>(alloc: Global) -> Arg<'a>
    ensures { HasRule result (required_option (codes "plan")) }
{
    let help = "The text of the plan, or - for standard input";
    option(alloc, "plan", "FILE", help).required(true)
}

fn explain_refusal<'a>(alloc: Global) -> Arg<'a>
    ensures { HasRule result (flag (codes "explain-refusal")) }
{
    let help =
        "Says on standard error what a refusal or a denial means, and where it is in the text";
    flag(alloc, "explain-refusal", help)
}

fn format_option<'a>(alloc: Global) -> Arg<'a>
    ensures { HasRule result (option (codes "format")) }
{
    let help =
        "How rows are written: csv, which is the default, or table, in aligned columns and with their number";
    option(alloc, "format", "FORMAT", help)
}

fn plan_format_option<'a>(alloc: Global) -> Arg<'a>
    ensures { HasRule result (option (codes "format")) }
{
    let help = "How the plan is written: text, which is the default and what verify reads, or tree";
    option(alloc, "format", "FORMAT", help)
}

fn with_option<'a>(alloc: Global) -> Arg<'a>
    ensures { HasRule result (required_option (codes "with")) }
{
    let help = "The schema text after the change, or - for standard input";
    option(alloc, "with", "FILE", help).required(true)
}

fn script_word<'a>(alloc: Global) -> Arg<'a>
    ensures { HasRule result (required_word (codes "SCRIPT")) }
{
    let help =
        "A file with an event a line, or - for standard input, of which each event is answered before the next is read";
    word(alloc, "SCRIPT", help).required(true)
}

// The command with a query's options and its text.
fn with_query_words<'a>(alloc: Global, command: Command<'a>) -> Result<Command<'a>, AllocError>
    ensures rules { IfOk result (λ c. app_of c
        ≡ fold with_rule (app_of command.entry) query_rules) }
    ensures local { IfOk result (λ c. IsLocal command.entry → IsLocal c) }
{
    command
        .arg(schema_option(alloc))?
        .arg(dir_option(alloc))?
        .arg(role_option(alloc))?
        .arg(file_option(alloc)?)?
        .arg(explain_refusal(alloc))?
        .arg(text_word(alloc)?)
}

fn query_command<'a>(alloc: Global) -> Result<Command<'a>, AllocError>
    ensures { IfOk result (λ c. HasShape c query_shape) }
{
    let command = Command::new(alloc, "query")
        .about("Writes the reply to a role's query as comma-separated text, or as a table")
        .after_help(EXAMPLE);
    with_query_words(alloc, command)?.arg(format_option(alloc))
}

fn explain_command<'a>(alloc: Global) -> Result<Command<'a>, AllocError>
    ensures { IfOk result (λ c. HasShape c explain_shape) }
{
    let command = Command::new(alloc, "explain").about(
        "Writes the plan by which a role's query is answered",
    );
    with_query_words(alloc, command)?.arg(plan_format_option(alloc))
}

fn verify_command<'a>(alloc: Global) -> Result<Command<'a>, AllocError>
    ensures { IfOk result (λ c. HasShape c verify_shape) }
{
    Command::new(alloc, "verify")
        .about("Says if a plan of a role's query is accepted, or which line of it is not")
        .arg(schema_option(alloc))?
        .arg(role_option(alloc))?
        .arg(plan_option(alloc))?
        .arg(file_option(alloc)?)?
        .arg(text_word(alloc)?)
}

fn session_command<'a>(alloc: Global) -> Result<Command<'a>, AllocError>
    ensures { IfOk result (λ c. HasShape c session_shape) }
{
    let frames =
        "Reads each event, and writes each reply, as a line with its number of bytes and then these bytes";
    Command::new(alloc, "session")
        .about("Writes the replies to the events of a script of sessions")
        .arg(schema_option(alloc))?
        .arg(dir_option(alloc))?
        .arg(flag(alloc, "frames", frames))?
        .arg(script_word(alloc))
}

fn matrix_command<'a>(alloc: Global) -> Result<Command<'a>, AllocError>
    ensures { IfOk result (λ c. HasShape c matrix_shape) }
{
    let role =
        "A role of which the rows are written; it may be there several times; all roles where it is not";
    Command::new(alloc, "matrix")
        .about(
            "Writes which rows and columns of each table each role reads, and why, with the rights of root",
        )
        .arg(schema_option(alloc))?
        .arg(dir_option(alloc))?
        .arg(repeated_option(alloc, "role", "NAME", role))?
        .arg(format_option(alloc))
}

fn changes_command<'a>(alloc: Global) -> Result<Command<'a>, AllocError>
    ensures { IfOk result (λ c. HasShape c changes_shape) }
{
    let allow = "A role and a table of which it may gain something; it may be there several times";
    Command::new(alloc, "changes")
        .about(
            "Writes the rows and columns that roles gain and lose by a change of the schema, with the rights of root",
        )
        .arg(schema_option(alloc))?
        .arg(with_option(alloc))?
        .arg(dir_option(alloc))?
        .arg(repeated_option(alloc, "allow", "ROLE:TABLE", allow))?
        .arg(format_option(alloc))
}

fn codes_command<'a>(alloc: Global) -> Command<'a>
    ensures { HasShape result codes_shape }
{
    Command::new(alloc, "codes").about("Lists the codes of refusals and faults with their meaning")
}

/// The program's command.
pub fn command<'a>(alloc: Global) -> Result<Command<'a>, AllocError>
    ensures { IfOk result (λ c. app_of c ≡ program) }
{
    Command::new(alloc, "rowplan")
        .version(VERSION)
        .about("Queries over tables with row security")
        .subcommand_required(true)
        .after_help(EXAMPLE)
        .subcommand(query_command(alloc)?)?
        .subcommand(explain_command(alloc)?)?
        .subcommand(verify_command(alloc)?)?
        .subcommand(session_command(alloc)?)?
        .subcommand(matrix_command(alloc)?)?
        .subcommand(changes_command(alloc)?)?
        .subcommand(codes_command(alloc))
}
