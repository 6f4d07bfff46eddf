//! What is asked, read: a moment, forms, rules, a wait, and a command with its URLs.
ghost use Rattle.std.specs.Prelude.{◌≡◌, ◌⊎◌, IfErr, IfOk, IsNone, MatchOption, None, Some, false, option_map};
ghost use Rattle.jiff.specs.Words.{civil_nanos};
ghost use Rattle.cookie_client.specs.Moment as moment_spec;
ghost use Rattle.user_agent.specs.Refusals.{browser_rules};
ghost use Rattle.jar_commands.specs.Plans as spec;
ghost use Rattle.jar_commands.specs.Started as started;

use crate::about::{Stopped, plain_about};
use crate::failure::Failure;
use crate::rule_names::rules_of;
use crate::words::{Name, Words, form_named, reader_named};
use cookie_client::moment::moment_of;
use cookie_jar::{Form, Layout, Which};
use cookies_txt::Reader;
use jiff::civil::DateTime;
use plain_url::is_plain_of;
use std::alloc::Global;
use url::{ParseError, Url};
use user_agent::{Initiator, Rules};

// For how many seconds it is waited where none are asked.
const WAIT: u64 = 10;

/// What starts a request.
#[derive(Debug, Drop)]
pub enum Start {
    /// The user.
    User,
    /// The page of this URL.
    Page(Url),
    /// The page of this URL, and it navigates the top level by a safe method.
    Navigation(Url),
}

impl Start {
    /// What a user agent is told of that.
    pub(crate) fn initiator(&self) -> Initiator<'_>
        ensures { started.IsStarted self.now result }
    {
        match self {
            Start::User => Initiator::user(),
            Start::Page(page) => by_page(page, false),
            Start::Navigation(page) => by_page(page, true),
        }
    }
}

// The page starts a request by a safe method, and it navigates the top level or doesn't.
fn by_page(page: &Url, is_navigation: bool) -> Initiator<'_>
    ensures { started.IsStartedBy page.now is_navigation result }
{
    Initiator {
        page: Some(page),
        is_navigation,
        is_safe: true,
    }
}

/// What is to be done to a jar. Each URL is that of a plain text.
#[derive(Debug, Drop)]
pub enum Command<'a> {
    /// `receive [--one] URL [--from PAGE [--navigate]]`: the URL, what started its request, and whether the last head
    /// alone is taken, since no `Location` was followed.
    Receive(Url, Start, bool),
    /// `header URL [--from PAGE [--navigate]]`.
    Header(Url, Start),
    /// `get URL NAME`.
    Get(Url, &'a str),
    /// `set URL LINE`.
    Set(Url, &'a str),
    /// `list [--json] [--domain DOMAIN] [URL]`.
    List(Which<'a>, Layout),
    /// `explain URL LINE`.
    Explain(Url, &'a str),
    /// `remove DOMAIN PATH NAME`.
    Remove(&'a str, &'a str, &'a str),
    /// `clear`.
    Clear,
    /// `import [--strict] [--file-format FORM] FILE`: the file, its form, and whether nothing is taken where something
    /// of it is refused.
    Import(&'a str, Form, bool),
    /// `export [--for READER] [--file-format FORM] FILE`: the file, its form, and who is to read it where that is said.
    Export(&'a str, Form, Option<Reader>),
}

/// A command, with the moment at which it is done and what else the words say.
#[derive(Debug, Drop)]
pub struct Plan<'a> {
    /// The moment.
    pub at: DateTime,
    /// The form of the jar's text.
    pub form: Form,
    /// The rules of user agents for lines.
    pub rules: Rules,
    /// For how many seconds another may hold the jar.
    pub wait: u64,
    /// Whether it is told what is passed over.
    pub is_verbose: bool,
    /// The jar's file.
    pub jar: &'a str,
    /// What is to be done.
    pub command: Command<'a>,
}

/// The plan of what words say; the moment is the clock's where none is asked.
///
/// # Errors
///
/// The first of `Moment`, `Format`, `Rules`, `OwnFile`, where an export is to the name of the jar, `Url`, where a text
/// isn't a plain URL, `From`, where that of the page isn't one, `FileFormat`, and `Wait`; `Memory` where memory was
/// refused for a URL.
pub fn plan_of<'a>(
    alloc: Global,
    words: &Words<'a>,
    clock: Option<DateTime>,
) -> Result<Plan<'a>, Stopped>
    ensures { IfOk result (λ plan. spec.is_onto plan.command plan.jar.now ≡ false) }
{
    let at = moment(alloc, words.value(Name::Now), clock)?;
    let form = form_asked(alloc, words)?;
    let rules = rules_for(alloc, words.value(Name::Rules))?;
    let jar = words.jar();
    let command = command_of(alloc, words, jar)?;
    let wait = wait_asked(alloc, words.value(Name::Wait))?;
    Ok(Plan {
        at,
        form,
        rules,
        wait,
        is_verbose: words.has(Name::Verbose),
        jar,
        command,
    })
}

// ---- the moment, the form, the rules and the wait

fn moment(alloc: Global, text: Option<&str>, clock: Option<DateTime>) -> Result<DateTime, Stopped>
    ensures ok { IfOk result (λ at. MatchOption text.entry (option_map civil_nanos clock ≡ Some (civil_nanos at))
        (λ text. moment_spec.moment_of text.now ≡ Some (civil_nanos at))) }
    ensures err { IfErr result (λ stopped. stopped.failure ≡ Failure.Moment) }
{
    let Some(text) = text else {
        return clock.ok_or(Stopped::of(Failure::Moment));
    };
    match moment_of(text) {
        Some(moment) => Ok(moment.date),
        None => Err(Stopped::named(
            alloc,
            Failure::Moment,
            text,
            ": no date and time of 1971 to 9998, as 2027-01-01T00:00:00Z",
        )),
    }
}

// The form that is asked, or the one that the jar's name tells.
fn form_asked(alloc: Global, words: &Words<'_>) -> Result<Form, Stopped> {
    if let Some(format) = words.value(Name::Format) {
        if let Some(form) = form_named(format) {
            return Ok(form);
        }
    }
    match form_told(words.jar()) {
        Some(form) => Ok(form),
        None => Err(Stopped::named(alloc, Failure::Format, words.jar(), ENDINGS)),
    }
}

const ENDINGS: &str = ": ends in neither .json, .ron nor .txt";

// The form that the jar's name ends with, and JSON where its last part has no dot.
fn form_told(jar: &str) -> Option<Form> {
    match Form::of(jar) {
        Some(form) => Some(form),
        None if last_part(jar).contains('.') => None,
        None => Some(Form::Json),
    }
}

/// What stands behind the last slash of a name.
pub(crate) fn last_part(name: &str) -> &str {
    match name.rsplit_once('/') {
        Some((_, last)) => last,
        None => name,
    }
}

fn rules_for(alloc: Global, list: Option<&str>) -> Result<Rules, Stopped>
    ensures { IsNone list.entry → IfOk result (λ rules. rules ≡ browser_rules) }
{
    match rules_of(list) {
        Some(rules) => Ok(rules),
        None => Err(Stopped::named(
            alloc,
            Failure::Rules,
            list.unwrap_or(""),
            ": neither browser, none nor names of rules between commas",
        )),
    }
}

fn wait_asked(alloc: Global, text: Option<&str>) -> Result<u64, Stopped> {
    let Some(text) = text else {
        return Ok(WAIT);
    };
    match text.parse::<u64>() {
        Ok(seconds) => Ok(seconds),
        Err(_) => Err(Stopped::named(alloc, Failure::Wait, text, ": no whole number of seconds")),
    }
}

// ---- the command

// The command that words name, which has all of its words.
fn command_of<'a>(alloc: Global, words: &Words<'a>, jar: &str) -> Result<Command<'a>, Stopped>
    ensures { IfOk result (λ command. spec.is_onto command jar.now ≡ false) }
{
    let name = words.command();
    let first = words.word(2).unwrap_or("");
    let second = words.word(3).unwrap_or("");
    if name == "receive" {
        let url = url_of(alloc, first)?;
        let start = start_of(alloc, words)?;
        return Ok(Command::Receive(url, start, words.has(Name::One)));
    }
    if name == "header" {
        let url = url_of(alloc, first)?;
        return Ok(Command::Header(url, start_of(alloc, words)?));
    }
    if name == "get" {
        return Ok(Command::Get(url_of(alloc, first)?, second));
    }
    if name == "set" {
        return Ok(Command::Set(url_of(alloc, first)?, second));
    }
    if name == "explain" {
        return Ok(Command::Explain(url_of(alloc, first)?, second));
    }
    if name == "list" {
        return Ok(Command::List(which_of(alloc, words)?, layout_of(words)));
    }
    if name == "remove" {
        return Ok(Command::Remove(first, second, words.word(4).unwrap_or("")));
    }
    if name == "import" {
        let form = form_of_file(alloc, words, first, None)?;
        return Ok(Command::Import(first, form, words.has(Name::Strict)));
    }
    if name == "export" {
        return export_of(alloc, words, first, jar);
    }
    Ok(Command::Clear)
}

// `export`, to another name than the jar's.
fn export_of<'a>(
    alloc: Global,
    words: &Words<'a>,
    file: &'a str,
    jar: &str,
) -> Result<Command<'a>, Stopped>
    ensures { IfOk result (λ command. spec.is_onto command jar.now ≡ false) }
{
    if is_own(file, jar) {
        return Err(Stopped::named(alloc, Failure::OwnFile, file, ""));
    }
    let reader = reader_named(words.value(Name::For).unwrap_or(""));
    let form = form_of_file(alloc, words, file, reader)?;
    Ok(Command::Export(file, form, reader))
}

// Whether a file is the jar's own, by its name: `-` is the output's, and no file's.
fn is_own(file: &str, jar: &str) -> bool
    ensures { result ≡ spec.is_own file.now jar.now }
{
    file == jar && file != "-"
}

// What starts the request.
fn start_of(alloc: Global, words: &Words<'_>) -> Result<Start, Stopped> {
    let Some(page) = words.value(Name::From) else {
        return Ok(Start::User);
    };
    let page = page_of(alloc, page)?;
    if words.has(Name::Navigate) {
        Ok(Start::Navigation(page))
    } else {
        Ok(Start::Page(page))
    }
}

// The rows to list, by the URL and the domain.
fn which_of<'a>(alloc: Global, words: &Words<'a>) -> Result<Which<'a>, Stopped> {
    match (words.word(2), words.value(Name::Domain)) {
        (Some(url), _) => Ok(Which::For(url_of(alloc, url)?)),
        (None, Some(domain)) => Ok(Which::Under(domain)),
        (None, None) => Ok(Which::All),
    }
}

fn layout_of(words: &Words<'_>) -> Layout {
    if words.has(Name::Json) {
        Layout::Json
    } else {
        Layout::Table
    }
}

// The form of the other file that is asked, or the one that its name ends with. `-` has that of `cookies.txt`. Only
// `cookies.txt` is written for a reader.
fn form_of_file(
    alloc: Global,
    words: &Words<'_>,
    file: &str,
    reader: Option<Reader>,
) -> Result<Form, Stopped> {
    let form = match words.value(Name::FileFormat) {
        Some(format) => form_named(format),
        None if file == "-" => Some(Form::Txt),
        None => Form::of(file),
    };
    match (form, reader) {
        (Some(Form::Txt), _) => Ok(Form::Txt),
        (Some(form), None) => Ok(form),
        (None, None) => Err(Stopped::named(alloc, Failure::FileFormat, file, ENDINGS)),
        (_, Some(_)) => Err(Stopped::named(
            alloc,
            Failure::FileFormat,
            file,
            ": its form isn't txt, as --for has it",
        )),
    }
}

// ---- its URLs

// The URL of a page whose text is plain.
fn page_of(alloc: Global, text: &str) -> Result<Url, Stopped>
    ensures ok { IfOk result (λ url. spec.plain_of text.now ≡ Some url) }
    ensures err { IfErr result (λ stopped. ((stopped.failure ≡ Failure.From) × (spec.plain_of text.now ≡ None))
        ⊎ (stopped.failure ≡ Failure.Memory)) }
{
    match plain_url(alloc, text) {
        Ok(url) => Ok(url),
        Err(Failure::Memory) => Err(Stopped::of(Failure::Memory)),
        Err(_) => Err(Stopped::about(Failure::From, plain_about(alloc, text))),
    }
}

// The URL of a plain text.
fn url_of(alloc: Global, text: &str) -> Result<Url, Stopped>
    ensures ok { IfOk result (λ url. spec.plain_of text.now ≡ Some url) }
    ensures err { IfErr result (λ stopped. ((stopped.failure ≡ Failure.Url) × (spec.plain_of text.now ≡ None))
        ⊎ (stopped.failure ≡ Failure.Memory)) }
{
    match plain_url(alloc, text) {
        Ok(url) => Ok(url),
        Err(Failure::Memory) => Err(Stopped::of(Failure::Memory)),
        Err(_) => Err(Stopped::about(Failure::Url, plain_about(alloc, text))),
    }
}

// The URL of a plain text: of any other, another program may read another one.
#[tactic(auto, unfolding(cookie_client::specs::Hosts::url_of))]
fn plain_url(alloc: Global, text: &str) -> Result<Url, Failure>
    ensures ok { IfOk result (λ url. spec.plain_of text.now ≡ Some url) }
    ensures err { IfErr result (λ failure. ((failure ≡ Failure.Url) × (spec.plain_of text.now ≡ None))
        ⊎ (failure ≡ Failure.Memory)) }
{
    match Url::parse(alloc, text) {
        Ok(url) => plain(url, text),
        Err(ParseError::OutOfMemory | ParseError::Overflow) => Err(Failure::Memory),
        Err(_) => Err(Failure::Url),
    }
}

// The URL, where this is its plain text.
fn plain(url: Url, text: &str) -> Result<Url, Failure>
    ensures ok { IfOk result (λ url_given. spec.plain_at text.now (Some url) ≡ Some url_given) }
    ensures err { IfErr result (λ failure.
        (failure ≡ Failure.Url) × (spec.plain_at text.now (Some url) ≡ None)) }
{
    if is_plain_of(&url, text) {
        Ok(url)
    } else {
        Err(Failure::Url)
    }
}
