//! The arguments of a command line.
ghost use Rattle.std.specs.Prelude.{◌≡◌, IfOk, Some, false, map, option_map};
ghost use Rattle.std.specs.List.{list_any};
ghost use Rattle.clap.specs.Words.{found_of, rows_of, subcommand_of, subcommand_rows_of};
ghost use Rattle.command_line.specs.Program.{program};
ghost use Rattle.command_line.specs.Requests as spec;
ghost use Rattle.command_line.specs.Requests.{asked, asked_of, is_format_unknown, is_pair_broken, reads_input_twice};
ghost use Rattle.command_line.specs.View.{allowed_of, audit_of, changes_of, matrix_of, query_of, request_of, session_of, text_of};

use crate::error::CommandLineError;
use crate::program::command;
use clap::error::ErrorKind;
use clap::{ArgMatches, Command};
use std::alloc::{AllocError, Global};

/// The source of the text of a query.
#[derive(Clone, Copy)]
pub enum QueryText<'a> {
    /// It is given as a word.
    Given(&'a str),
    /// It is in the file of this path, or on standard input where that is `-`.
    File(&'a str),
}

/// The form of the rows of an answer.
#[derive(Clone, Copy, Debug, PartialEq, Eq)]
pub enum Format {
    /// Comma-separated text.
    Csv,
    /// A table in aligned columns.
    Table,
}

/// The form of a plan.
#[derive(Clone, Copy, Debug, PartialEq, Eq)]
pub enum PlanFormat {
    /// The text that `verify` reads.
    Text,
    /// A tree.
    Tree,
}

/// The arguments of `rowplan query` and `rowplan explain`.
#[derive(Clone, Copy)]
pub struct QueryArguments<'a> {
    /// The path of the schema text, or `-` for standard input.
    pub schema: &'a str,
    /// The folder of the files of the tables.
    pub dir: &'a str,
    /// The role that asks.
    pub role: &'a str,
    /// The query.
    pub text: QueryText<'a>,
    /// True where the diagnostics of a refusal or a denial go to standard error.
    pub explain_refusal: bool,
}

/// The arguments of `rowplan verify`.
#[derive(Clone, Copy)]
pub struct VerifyArguments<'a> {
    /// The path of the schema text, or `-` for standard input.
    pub schema: &'a str,
    /// The role that asks.
    pub role: &'a str,
    /// The path of the plan's text, or `-` for standard input.
    pub plan: &'a str,
    /// The query.
    pub text: QueryText<'a>,
}

/// The arguments of `rowplan session`.
#[derive(Clone, Copy)]
pub struct SessionArguments<'a> {
    /// The path of the schema text, or `-` for standard input.
    pub schema: &'a str,
    /// The folder of the files of the tables.
    pub dir: &'a str,
    /// The path of the script, or `-` for standard input.
    pub script: &'a str,
    /// True where each event and each reply is a line with its number of bytes and then these bytes.
    pub frames: bool,
}

/// The arguments of `rowplan matrix`.
#[derive(Drop)]
pub struct MatrixArguments<'a> {
    /// The path of the schema text, or `-` for standard input.
    pub schema: &'a str,
    /// The folder of the files of the tables.
    pub dir: &'a str,
    /// The roles; all of them where there is none.
    pub roles: Vec<&'a str>,
    /// The form of the rows.
    pub format: Format,
}

/// A role and a table of which it may gain something.
#[derive(Clone, Copy)]
pub struct Allowed<'a> {
    /// The role.
    pub role: &'a str,
    /// The table.
    pub table: &'a str,
}

/// The arguments of `rowplan changes`.
#[derive(Drop)]
pub struct ChangesArguments<'a> {
    /// The path of the schema text before the change, or `-` for standard input.
    pub before: &'a str,
    /// The path of the schema text after the change, or `-` for standard input.
    pub after: &'a str,
    /// The folder of the files of the tables.
    pub dir: &'a str,
    /// Who may gain something.
    pub allowed: Vec<Allowed<'a>>,
    /// The form of the rows.
    pub format: Format,
}

/// The request of a command line.
#[derive(Drop)]
pub enum Request<'a> {
    /// The reply to a query.
    Query(QueryArguments<'a>, Format),
    /// The plan of a query.
    Explain(QueryArguments<'a>, PlanFormat),
    /// The audit of a plan of a query.
    Verify(VerifyArguments<'a>),
    /// The replies to the events of a script.
    Session(SessionArguments<'a>),
    /// What roles read.
    Matrix(MatrixArguments<'a>),
    /// What roles gain and lose by a change of the schema.
    Changes(ChangesArguments<'a>),
    /// The codes of refusals and faults with their meaning.
    Codes,
}

// True where the flag is there.
fn is_set(found: &ArgMatches<'_>, name: &str) -> bool
    ensures { result ≡ spec.is_set name.now (rows_of (found_of found.now)) }
{
    found.get_one::<bool>(name).unwrap_or(false)
}

// The query's file, else its text.
fn query_text<'a>(found: &ArgMatches<'a>) -> Option<QueryText<'a>>
    ensures { option_map text_of result ≡ spec.query_text (rows_of (found_of found.now)) }
{
    match found.get_str("file") {
        Some(path) => Some(QueryText::File(path)),
        None => Some(QueryText::Given(found.get_str("TEXT")?)),
    }
}

fn format_called(name: &str) -> Option<Format>
    ensures { result ≡ spec.format_called name.now }
{
    match name {
        "csv" => Some(Format::Csv),
        "table" => Some(Format::Table),
        _ => None,
    }
}

// The format that is named, comma-separated text where none is; no other name is one.
fn format_of(found: &ArgMatches<'_>) -> Option<Format>
    ensures { result ≡ spec.format_of (rows_of (found_of found.now)) }
{
    match found.get_str("format") {
        Some(name) => format_called(name),
        None => Some(Format::Csv),
    }
}

fn plan_format_called(name: &str) -> Option<PlanFormat>
    ensures { result ≡ spec.plan_format_called name.now }
{
    match name {
        "text" => Some(PlanFormat::Text),
        "tree" => Some(PlanFormat::Tree),
        _ => None,
    }
}

// The format of a plan that is named, its text where none is; no other name is one.
fn plan_format_of(found: &ArgMatches<'_>) -> Option<PlanFormat>
    ensures { result ≡ spec.plan_format_of (rows_of (found_of found.now)) }
{
    match found.get_str("format") {
        Some(name) => plan_format_called(name),
        None => Some(PlanFormat::Text),
    }
}

fn query_arguments<'a>(found: &ArgMatches<'a>) -> Option<QueryArguments<'a>>
    ensures { option_map query_of result ≡ spec.query_arguments (rows_of (found_of found.now)) }
{
    let schema = found.get_str("schema")?;
    let dir = found.get_str("dir")?;
    let role = found.get_str("role")?;
    let text = query_text(found)?;
    Some(QueryArguments {
        schema,
        dir,
        role,
        text,
        explain_refusal: is_set(found, "explain-refusal"),
    })
}

fn copied<'a>(alloc: Global, texts: &[&'a str]) -> Result<Vec<&'a str>, AllocError>
    ensures { IfOk result (λ v. map (λ t. t.now) v.items ≡ map (λ t. t.now) texts.now) }
{
    let mut copy = Vec::new(alloc);
    copy.extend_from_slice(texts)?;
    Ok(copy)
}

// The values of an argument, in memory of their own.
fn texts_of<'a>(
    alloc: Global,
    name: &str,
    found: &ArgMatches<'a>,
) -> Result<Vec<&'a str>, AllocError>
    ensures { IfOk result (λ v. map (λ t. t.now) v.items ≡ spec.texts_of name.now (rows_of (found_of found.now))) }
{
    match found.get_strs(name) {
        Some(values) => copied(alloc, values),
        None => Ok(Vec::new(alloc)),
    }
}

// What stands before and after the first colon of a text.
fn pair_in(text: &str) -> Option<(&str, &str)>
    ensures { option_map (λ p. (p.0.now, p.1.now)) result ≡ spec.pair_in text.now }
{
    text.split_once(':')
}

// The pairs of texts, each of which has to be one.
fn pairs_in<'a>(alloc: Global, texts: &[&'a str]) -> Result<Option<Vec<Allowed<'a>>>, AllocError>
    ensures { IfOk result (λ o. option_map (λ v. map allowed_of v.items) o ≡ spec.pairs_in (map (λ t. t.now) texts.now)) }
{
    let mut pairs = Vec::new(alloc);
    for text in texts {
        match pair_in(text) {
            Some((role, table)) => pairs.push(Allowed { role, table })?,
            None => return Ok(None),
        }
    }
    Ok(Some(pairs))
}

fn allowed_pairs<'a>(
    alloc: Global,
    found: &ArgMatches<'a>,
) -> Result<Option<Vec<Allowed<'a>>>, AllocError>
    ensures { IfOk result (λ o. option_map (λ v. map allowed_of v.items) o ≡ spec.allowed_pairs (rows_of (found_of found.now))) }
{
    let texts = texts_of(alloc, "allow", found)?;
    pairs_in(alloc, &texts)
}

// The paths and the format of `matrix`.
fn matrix_with<'a>(found: &ArgMatches<'a>, roles: Vec<&'a str>) -> Option<MatrixArguments<'a>>
    ensures { option_map matrix_of result ≡ spec.matrix_with (map (λ r. r.now) roles.entry.items) (rows_of (found_of found.now)) }
{
    let schema = found.get_str("schema")?;
    let dir = found.get_str("dir")?;
    let format = format_of(found)?;
    Some(MatrixArguments {
        schema,
        dir,
        roles,
        format,
    })
}

fn matrix_arguments<'a>(
    alloc: Global,
    found: &ArgMatches<'a>,
) -> Result<Option<MatrixArguments<'a>>, AllocError>
    ensures { IfOk result (λ o. option_map matrix_of o ≡ spec.matrix_arguments (rows_of (found_of found.now))) }
{
    let roles = texts_of(alloc, "role", found)?;
    Ok(matrix_with(found, roles))
}

// The paths and the format of `changes`.
fn changes_with<'a>(
    found: &ArgMatches<'a>,
    allowed: Vec<Allowed<'a>>,
) -> Option<ChangesArguments<'a>>
    ensures { option_map changes_of result ≡ spec.changes_with (map allowed_of allowed.entry.items) (rows_of (found_of found.now)) }
{
    let before = found.get_str("schema")?;
    let after = found.get_str("with")?;
    let dir = found.get_str("dir")?;
    let format = format_of(found)?;
    Some(ChangesArguments {
        before,
        after,
        dir,
        allowed,
        format,
    })
}

fn changes_arguments<'a>(
    alloc: Global,
    found: &ArgMatches<'a>,
) -> Result<Option<ChangesArguments<'a>>, AllocError>
    ensures { IfOk result (λ o. option_map changes_of o ≡ spec.changes_arguments (rows_of (found_of found.now))) }
{
    match allowed_pairs(alloc, found)? {
        Some(allowed) => Ok(changes_with(found, allowed)),
        None => Ok(None),
    }
}

fn verify_arguments<'a>(found: &ArgMatches<'a>) -> Option<VerifyArguments<'a>>
    ensures { option_map audit_of result ≡ spec.verify_arguments (rows_of (found_of found.now)) }
{
    let schema = found.get_str("schema")?;
    let role = found.get_str("role")?;
    let plan = found.get_str("plan")?;
    let text = query_text(found)?;
    Some(VerifyArguments {
        schema,
        role,
        plan,
        text,
    })
}

fn session_arguments<'a>(found: &ArgMatches<'a>) -> Option<SessionArguments<'a>>
    ensures { option_map session_of result ≡ spec.session_arguments (rows_of (found_of found.now)) }
{
    let schema = found.get_str("schema")?;
    let dir = found.get_str("dir")?;
    let script = found.get_str("SCRIPT")?;
    Some(SessionArguments {
        schema,
        dir,
        script,
        frames: is_set(found, "frames"),
    })
}

// The request of `query`.
fn query_asked<'a>(found: &ArgMatches<'a>) -> Option<Request<'a>>
    ensures { option_map request_of result ≡ spec.query_asked (rows_of (found_of found.now)) }
{
    let query = query_arguments(found)?;
    let format = format_of(found)?;
    Some(Request::Query(query, format))
}

// The request of `explain`.
fn explain_asked<'a>(found: &ArgMatches<'a>) -> Option<Request<'a>>
    ensures { option_map request_of result ≡ spec.explain_asked (rows_of (found_of found.now)) }
{
    let query = query_arguments(found)?;
    let format = plan_format_of(found)?;
    Some(Request::Explain(query, format))
}

// The request of a subcommand without lists, if nothing that it requires is missing.
fn plain_request<'a>(name: &str, found: &ArgMatches<'a>) -> Option<Request<'a>>
    ensures { option_map request_of result ≡ spec.plain_asked name.now (rows_of (found_of found.now)) }
{
    match name {
        "query" => query_asked(found),
        "explain" => explain_asked(found),
        "verify" => Some(Request::Verify(verify_arguments(found)?)),
        "session" => Some(Request::Session(session_arguments(found)?)),
        "codes" => Some(Request::Codes),
        _ => None,
    }
}

// The request of a subcommand, if nothing that it requires is missing.
fn request_of<'a>(
    alloc: Global,
    name: &str,
    found: &ArgMatches<'a>,
) -> Result<Option<Request<'a>>, AllocError>
    ensures { IfOk result (λ o. option_map request_of o ≡ asked_of name.now (rows_of (found_of found.now))) }
{
    match name {
        "matrix" => match matrix_arguments(alloc, found)? {
            Some(matrix) => Ok(Some(Request::Matrix(matrix))),
            None => Ok(None),
        },
        "changes" => match changes_arguments(alloc, found)? {
            Some(changes) => Ok(Some(Request::Changes(changes))),
            None => Ok(None),
        },
        _ => Ok(plain_request(name, found)),
    }
}

// The request of the subcommand that was met.
fn asked<'a>(alloc: Global, matches: &ArgMatches<'a>) -> Result<Option<Request<'a>>, AllocError>
    ensures { IfOk result (λ o. option_map request_of o ≡ asked (subcommand_rows_of matches.now)) }
{
    match matches.subcommand() {
        Some((name, found)) => request_of(alloc, name, found),
        None => Ok(None),
    }
}

fn is_input(path: &str) -> bool
    ensures { result ≡ spec.is_input path.now }
{
    path == "-"
}

// True where the query is read from standard input.
fn is_text_input(text: QueryText<'_>) -> bool
    ensures { result ≡ list_any spec.is_input (spec.path_of (text_of text.entry)) }
{
    match text {
        QueryText::File(path) => is_input(path),
        QueryText::Given(_) => false,
    }
}

// True where the request would read standard input twice.
fn is_input_twice(request: &Request<'_>) -> bool
    ensures { result ≡ reads_input_twice (request_of request.now) }
{
    match request {
        Request::Query(query, _) | Request::Explain(query, _) => is_input(query.schema)
            && is_text_input(query.text),
        Request::Verify(audit) => {
            let schema = is_input(audit.schema);
            let plan = is_input(audit.plan);
            (schema && plan) || ((schema || plan) && is_text_input(audit.text))
        }
        Request::Session(script) => is_input(script.schema) && is_input(script.script),
        Request::Changes(changes) => is_input(changes.before) && is_input(changes.after),
        Request::Matrix(_) | Request::Codes => false,
    }
}

// The request, unless it would read standard input twice.
fn accepted<'a>(
    command: &mut Command<'a>,
    request: Option<Request<'a>>,
) -> Result<Request<'a>, CommandLineError>
    ensures same { IfOk result (λ r. request.entry ≡ Some r) }
    ensures once { IfOk result (λ r. reads_input_twice (request_of r) ≡ false) }
{
    let Some(request) = request else {
        return Err(CommandLineError::OutOfMemory);
    };
    if is_input_twice(&request) {
        let error = command.error(
            ErrorKind::ArgumentConflict,
            "standard input can be one of the schemas, the plan, the query and the script",
        )?;
        return Err(CommandLineError::Usage(error));
    }
    Ok(request)
}

fn is_format_unknown_of(name: &str, found: &ArgMatches<'_>) -> bool
    ensures { result ≡ spec.is_format_unknown_of name.now (rows_of (found_of found.now)) }
{
    if name == "explain" {
        plan_format_of(found).is_none()
    } else {
        format_of(found).is_none()
    }
}

// True where the matches name no format that there is.
fn is_format_unknown(matches: &ArgMatches<'_>) -> bool
    ensures { result ≡ is_format_unknown (subcommand_rows_of matches.now) }
{
    match matches.subcommand() {
        Some((name, found)) => is_format_unknown_of(name, found),
        None => false,
    }
}

// True where a pair that is allowed has no colon.
fn is_pair_broken(alloc: Global, matches: &ArgMatches<'_>) -> Result<bool, AllocError>
    ensures { IfOk result (λ b. b ≡ is_pair_broken (subcommand_rows_of matches.now)) }
{
    match matches.subcommand() {
        Some((_, found)) => Ok(allowed_pairs(alloc, found)?.is_none()),
        None => Ok(false),
    }
}

// The words of an error of the values that were met, if there is one.
fn value_error(
    alloc: Global,
    matches: &ArgMatches<'_>,
) -> Result<Option<&'static str>, AllocError> {
    if is_format_unknown(matches) {
        return Ok(Some(
            "the value of '--format <FORMAT>' is csv or table, of explain text or tree",
        ));
    }
    if is_pair_broken(alloc, matches)? {
        return Ok(Some("the value of '--allow <ROLE:TABLE>' is a role, a colon and a table"));
    }
    Ok(None)
}

/// Reads the words of a command line, of which the first is the program's name: at `Ok` the request
/// is the one that they say, and it reads standard input at most once.
pub fn read_words<'a>(alloc: Global, words: &'a [&'a str]) -> Result<Request<'a>, CommandLineError>
    ensures asked { IfOk result (λ request.
        asked (subcommand_of program (map (λ w. w.now) words.entry.now))
        ≡ Some (request_of request)) }
    ensures once { IfOk result (λ request. reads_input_twice (request_of request) ≡ false) }
{
    let mut command = command(alloc)?;
    let matches = command.try_get_matches_from_mut(words)?;
    if let Some(words) = value_error(alloc, &matches)? {
        let error = command.error(ErrorKind::InvalidValue, words)?;
        return Err(CommandLineError::Usage(error));
    }
    let asked = asked(alloc, &matches)?;
    accepted(&mut command, asked)
}
