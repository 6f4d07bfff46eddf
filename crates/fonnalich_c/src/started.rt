//! A request and what starts it: the lines of its answer, and its header.
ghost use Rattle.std.specs.Prelude.{◌≡◌, ◌≤◌, ◌⊎◌, ◌∷◌, ℕ, List, [], length, map, option_map, vec_capacity};
ghost use Rattle.std.specs.Prelude.{IfOk, IfErr};
ghost use Rattle.jiff.specs.Words.{civil_nanos};
ghost use Rattle.user_agent.specs.CrossAnswers.{ReceivesFor, IsStoppedFor};
ghost use Rattle.user_agent.specs.declared.cross_answer.OutcomeFor.{OutcomeFor};
ghost use Rattle.fonnalich_c.specs.Faults.{IsTold};
ghost use Rattle.fonnalich_c.specs.Given.{IsUrl, lines_of, nanos_of};
ghost use Rattle.fonnalich_c.specs.Rules.{outcome_for_number};
ghost use Rattle.fonnalich_c.specs.Started as spec;
ghost use Rattle.fonnalich_c.specs.Tasks.{request_of};

use crate::control::has_control;
use crate::given::{Given, lines, url};
use crate::page::{Page, url_at};
use crate::refusal::Refusal;
use crate::rule::outcome_for_number;
use crate::second::{Second, date_at};
use crate::task::Browsing;
use cookie_client::Client;
use jiff::civil::DateTime;
use std::alloc::Global;
use url::Url;
use user_agent::cross_answer::{comes_across, receive_for};
use user_agent::cross_site::header_for;
use user_agent::{Initiator, OutcomeFor, Rules, SecurePlaces, take};

/// What starts a request.
#[derive(Clone, Copy, Debug, PartialEq, Eq)]
pub enum Start {
    /// The user.
    User,
    /// A page, but for a navigation of the top level.
    Page,
    /// A page, by a navigation of the top level. A header is that of one by a safe method; of lines the method is not
    /// looked at.
    Navigation,
}

impl Start {
    /// What a number says of it.
    pub fn of(number: u32) -> Option<Start>
        ensures { result ≡ spec.start_of number }
    {
        match number {
            0 => Some(Start::User),
            1 => Some(Start::Page),
            2 => Some(Start::Navigation),
            _ => None,
        }
    }
}

/// A request whose texts were read.
#[derive(Drop)]
struct Request<'p> {
    url: &'p Url,
    page: Option<Url>,
    now: DateTime,
}

/// Takes the lines of an answer. There is room for what is said of them before one is taken.
pub(crate) fn receive(
    alloc: Global,
    client: &mut Client,
    browsing: &mut Browsing,
    start: Start,
    given: &Given<'_>,
) -> Result<Vec<u8>, Refusal>
    ensures ok { IfOk result (λ answer. spec.Receives browsing.old.rules (request_of start given.now) given.now.text
        client.old answer.items client.new) }
    ensures err { IfErr result (λ refused. spec.RefusesLines browsing.old.rules (request_of start given.now)
        given.now.text client.old refused client.new) }
    ensures rules { browsing.new.rules ≡ browsing.old.rules }
{
    let request = read(
        alloc,
        &mut browsing.page,
        &mut browsing.second,
        start,
        given,
    )?;
    let initiator = initiator(start, &request.page);
    let (url, now, rules) = (request.url, request.now, browsing.rules);
    take_all(alloc, client, &rules, url, &initiator, given.text, now)
}

/// Takes the line of an answer that has no other, and gives the number of what became of it: no list is made of it.
pub(crate) fn receive_line(
    alloc: Global,
    client: &mut Client,
    browsing: &mut Browsing,
    start: Start,
    given: &Given<'_>,
) -> Result<u8, Refusal>
    requires one { lines_of given.now.text ≡ given.now.text ∷ [] }
    ensures ok { IfOk result (λ number. spec.Receives browsing.old.rules (request_of start given.now) given.now.text
        client.old (number ∷ []) client.new) }
    ensures err { IfErr result (λ refused. spec.RefusesLines browsing.old.rules (request_of start given.now)
        given.now.text client.old refused client.new) }
    ensures rules { browsing.new.rules ≡ browsing.old.rules }
{
    let request = read(
        alloc,
        &mut browsing.page,
        &mut browsing.second,
        start,
        given,
    )?;
    let across = comes_across(
        client.store(),
        request.url,
        &initiator(start, &request.page),
    );
    let (url, now, rules) = (request.url, request.now, browsing.rules);
    let secure = SecurePlaces::none();
    match take(client, &rules, across, &secure, url, given.text, now) {
        Ok((outcome, _)) => Ok(outcome_for_number(outcome)),
        Err(_) => Err(Refusal::Stopped(1)),
    }
}

/// The header of a request, if none of its bytes is a control character: one that is would begin a further field.
pub(crate) fn header(
    alloc: Global,
    client: &Client,
    browsing: &mut Browsing,
    start: Start,
    given: &Given<'_>,
) -> Result<Vec<u8>, Refusal>
    ensures ok { IfOk result (λ answer.
        spec.Heads browsing.old.rules (request_of start given.now) client.now answer.items) }
    ensures err { IfErr result
        (IsTold (spec.IsHeaderFault browsing.old.rules (request_of start given.now) client.now)) }
    ensures rules { browsing.new.rules ≡ browsing.old.rules }
{
    let request = read(
        alloc,
        &mut browsing.page,
        &mut browsing.second,
        start,
        given,
    )?;
    let initiator = initiator(start, &request.page);
    let (url, now, rules) = (request.url, request.now, browsing.rules);
    let header = header_for(client, &rules, url, &initiator, now)?;
    if has_control(header.as_bytes()) {
        return Err(Refusal::Line);
    }
    Ok(header.into_bytes())
}

// Reads the texts of a request. Where no page starts it, the text of that isn't looked at.
fn read<'p>(
    alloc: Global,
    last: &'p mut Option<Page>,
    second: &mut Option<Second>,
    start: Start,
    given: &Given<'_>,
) -> Result<Request<'p>, Refusal>
    ensures ok { IfOk result (λ request. (civil_nanos request.now ≡ nanos_of given.now.number)
        × IsUrl given.now.subject request.url.now × spec.IsPageOf start given.now.page request.page) }
    ensures err { IfErr result (IsTold (spec.IsRequestFault (request_of start given.now))) }
{
    let now = date_at(second, given.number)?;
    let page = page_of(alloc, start, given.page)?;
    let url = url_at(alloc, last, given.subject)?;
    Ok(Request { url, page, now })
}

// The page that starts a request, where one does.
fn page_of(alloc: Global, start: Start, text: &[u8]) -> Result<Option<Url>, Refusal>
    ensures ok { IfOk result (spec.IsPageOf start text.now) }
    ensures err { IfErr result (λ refused.
        (refused ≡ Refusal.Memory) ⊎ ((refused ≡ Refusal.Url) × spec.IsNoPageOf start text.now)) }
{
    match start {
        Start::User => Ok(None),
        Start::Page | Start::Navigation => Ok(Some(url(alloc, text)?)),
    }
}

// What starts a request, by the page that does.
fn initiator<'r>(start: Start, page: &'r Option<Url>) -> Initiator<'r>
    ensures page { option_map (λ page. page.now) result.page ≡ page.now }
    ensures navigation { result.is_navigation ≡ spec.navigates start }
    ensures safe { result.is_safe ≡ spec.navigates start }
{
    let navigates = navigates(start);
    Initiator {
        page: page.as_ref(),
        is_navigation: navigates,
        is_safe: navigates,
    }
}

fn navigates(start: Start) -> bool
    ensures { result ≡ spec.navigates start }
{
    match start {
        Start::User | Start::Page => false,
        Start::Navigation => true,
    }
}

// Takes the lines of the text. There is room for what is said of them before one is taken.
fn take_all(
    alloc: Global,
    client: &mut Client,
    rules: &Rules,
    url: &Url,
    initiator: &Initiator<'_>,
    text: &[u8],
    now: DateTime,
) -> Result<Vec<u8>, Refusal>
    ensures ok { IfOk result (λ answer. (outcomes : List OutcomeFor) × ReceivesFor rules.now client.old.suffixes
        client.old.rows url.now initiator.now (civil_nanos now) (lines_of text.now) outcomes client.new.rows
        × (answer.items ≡ map outcome_for_number outcomes)) }
    ensures err { IfErr result (λ refused. ((refused ≡ Refusal.Memory) × (client.new ≡ client.old))
        ⊎ ((line : ℕ) × (refused ≡ Refusal.Stopped line) × IsStoppedFor rules.now client.old.suffixes client.old.rows
        url.now initiator.now (civil_nanos now) (lines_of text.now) line client.new.rows)) }
    ensures list { client.new.suffixes ≡ client.old.suffixes }
{
    let Ok(lines) = lines(alloc, text) else {
        return Err(Refusal::Memory);
    };
    let Ok(room) = Vec::with_capacity(alloc, lines.len()) else {
        return Err(Refusal::Memory);
    };
    match receive_for(client, rules, url, initiator, &lines, now) {
        Ok(outcomes) => Ok(numbered(room, &outcomes)),
        Err(stopped) => Err(Refusal::Stopped(stopped.0)),
    }
}

// The numbers of what became of the lines.
fn numbered(room: Vec<u8>, outcomes: &[OutcomeFor]) -> Vec<u8>
    requires empty { room.items ≡ [] }
    requires fits { length outcomes.now ≤ vec_capacity room }
    ensures { result.items ≡ map outcome_for_number outcomes.now }
{
    let mut answer = room;
    for outcome in outcomes {
        answer.push_reserved(outcome_for_number(*outcome));
    }
    answer
}
