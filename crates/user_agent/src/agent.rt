//! A user agent: a client behind rules.
ghost use Rattle.std.specs.Prelude.{◌≡◌, ◌⊎◌, ◌≤ℤ◌, false, map, pos, IfErr, IfOk, OnErr, OnOk, string_bytes};
ghost use Rattle.std.specs.Io.KnownBytes.{Appends};
ghost use Rattle.std.specs.List.{AllByRecursion};
ghost use Rattle.std.specs.Str.{IsUtf8};
ghost use Rattle.jiff.specs.Words.{civil_nanos};
ghost use Rattle.saved_text.specs.RonLayout.{ron_layout};
ghost use Rattle.saved_text.specs.RonReading.{ShowsOnly};
ghost use Rattle.store_parts.specs.declared.error.Error.TheVariants.{Io, OutOfMemory};
ghost use Rattle.cookie_store.specs.Given.{ArePicked};
ghost use Rattle.cookie_store.specs.Placing.{saved};
ghost use Rattle.cookie_store.specs.Rows.{Store};
ghost use Rattle.cookie_store.specs.SavedLaws.{IsOfBytes};
ghost use Rattle.cookie_store.specs.SavedTexts as form;
ghost use Rattle.cookie_client.specs.HostPrefix.{AreHeldRightly, IsHeldRightly};
ghost use Rattle.cookie_client.specs.Keeping.{HaveReadPairs, Keeps};
ghost use Rattle.cookie_client.specs.KeptKeys.{KeepsKeys};
ghost use Rattle.user_agent.specs.Agent as spec;
ghost use Rattle.user_agent.specs.CrossAnswers.{IsStoppedFor, ReceivesFor};
ghost use Rattle.user_agent.specs.Headers.{IsHeaderBehind, OtherHeadersAreTheClients};
ghost use Rattle.user_agent.specs.Integrity.{ProtectedRowsStay};
ghost use Rattle.user_agent.specs.SecurePlaces.{ArePlacesOf, ShowPlaces};

use crate::cross_answer::{OutcomeFor, receive_for};
use crate::cross_site::header_for;
use crate::rules::{Outcome, Rules};
use crate::secure_places::SecurePlaces;
use crate::sites::Initiator;
use crate::taking::take;
use cookie_client::{Client, Stopped};
use cookie_store::{Error, Sink, Source};
use jiff::civil::DateTime;
use publicsuffix::List;
use std::alloc::{AllocError, Global};
use std::marker::Model;
use url::Url;

/// A user agent: a client that gets the lines of an answer which no rule refuses.
///
/// Contracts see it as the client's store and the rules.
#[derive(Drop, Debug)]
pub struct UserAgent {
    client: Client,
    rules: Rules,
}

impl Model for UserAgent {
    ghost use Rattle.user_agent.specs.Agent.{Agent};

    ghost Value = { Agent };

    ghost view = { λ a. record { store = a.client; rules = a.rules } };
}

impl UserAgent {
    /// The user agent of this client and these rules. No row of the client's is judged by them, but for headers
    /// ([`UserAgent::header`]).
    pub fn new(client: Client, rules: Rules) -> UserAgent
        ensures { result ≡ record { store = client; rules = rules } }
    {
        UserAgent { client, rules }
    }

    /// Its client.
    pub fn client(&self) -> &Client
        ensures { result.now ≡ self.now.store }
    {
        &self.client
    }

    /// Its rules.
    pub fn rules(&self) -> Rules
        ensures { result ≡ self.now.rules }
    {
        self.rules
    }

    /// The `Cookie` header of a request to this URL at `now`: the client's, but where `secure_wins` is on without the
    /// rows that aren't `Secure` and whose name, percent-decoded, is that of a `Secure` row which the request is given;
    /// and where `control` is on without those in whose name or value a control character other than a tab stands, so
    /// that it has none ([`crate::laws::headers_have_no_control`]).
    ///
    /// A request to a URL that isn't secure is given no `Secure` row, so `secure_wins` leaves its header as it is. No
    /// line gives a row with a control character where `control` was on: such a row was loaded, imported or there
    /// before.
    ///
    /// # Errors
    ///
    /// `AllocError` where there is no memory for the text, or, where one of these rules is on, to tell what it shows.
    pub fn header(&self, url: &Url, now: DateTime) -> Result<String, AllocError>
        ensures { IfOk result (λ header.
            IsHeaderBehind self.now.rules self.now.store.rows url.now (civil_nanos now) (string_bytes header)) }
    {
        header_for(&self.client, &self.rules, url, &Initiator::user(), now)
    }

    /// Takes the `Set-Cookie` lines of an answer from this URL at `now`, one after another, and says what became of
    /// each.
    ///
    /// A line is refused by the first rule that is on and refuses it, which looks at the rows as the lines before it
    /// left them, and changes nothing then. Any other goes to the client, as `Client::receive` says: where these rules
    /// are on, without its long attributes, its dates known and its life cut. Where none of these three is on, no line
    /// is copied.
    ///
    /// # Errors
    ///
    /// `Stopped` with the line, counted from 1, at which memory was refused: those before it were taken and no later
    /// one was looked at. At 0 none was looked at.
    pub fn receive(
        &mut self,
        url: &Url,
        lines: &[&[u8]],
        now: DateTime,
    ) -> Result<Vec<Outcome>, Stopped>
        ensures all { IfOk result (λ outcomes. spec.TakesLines self.old.rules self.old.store.suffixes
            self.old.store.rows url.now (civil_nanos now) (map (λ line. line.now) lines.now) outcomes.items
            self.new.store.rows) }
        ensures stopped { IfErr result (λ stopped. spec.IsStopped self.old.rules self.old.store.suffixes
            self.old.store.rows url.now (civil_nanos now) (map (λ line. line.now) lines.now) stopped.0
            self.new.store.rows) }
        ensures list { self.new.store.suffixes ≡ self.old.store.suffixes }
        ensures rules { self.new.rules ≡ self.old.rules }
        ensures held { AreHeldRightly self.new.store.rows }
    {
        let taken = receive_all(&mut self.client, &self.rules, url, lines, now);
        // What a client holds it holds rightly.
        let _store = self.client.store();
        taken
    }

    /// Takes the `Set-Cookie` lines of an answer at `now` to a request to this URL that was started so. What
    /// [`UserAgent::receive`] says of a line holds of each that the answer may set by the cookie's `SameSite`.
    ///
    /// Where a page of another site started the request, and it doesn't navigate the top level, the answer may set no
    /// cookie that is `Strict` or `Lax`; nor one without the attribute where the rule `lax_by_default` is on. Where the
    /// rule `none_needs_secure` is on, no answer may set one with `SameSite=None` that isn't `Secure`. Such a line
    /// changes nothing: a cookie that it would replace stays. A control character is told first of all.
    ///
    /// # Errors
    ///
    /// Those of [`UserAgent::receive`].
    pub fn receive_for(
        &mut self,
        url: &Url,
        initiator: &Initiator<'_>,
        lines: &[&[u8]],
        now: DateTime,
    ) -> Result<Vec<OutcomeFor>, Stopped>
        ensures all { IfOk result (λ outcomes. ReceivesFor self.old.rules self.old.store.suffixes self.old.store.rows
            url.now initiator.now (civil_nanos now) (map (λ line. line.now) lines.now) outcomes.items
            self.new.store.rows) }
        ensures stopped { IfErr result (λ stopped. IsStoppedFor self.old.rules self.old.store.suffixes
            self.old.store.rows url.now initiator.now (civil_nanos now) (map (λ line. line.now) lines.now) stopped.0
            self.new.store.rows) }
        ensures list { self.new.store.suffixes ≡ self.old.store.suffixes }
        ensures rules { self.new.rules ≡ self.old.rules }
        ensures held { AreHeldRightly self.new.store.rows }
    {
        let taken = receive_for(&mut self.client, &self.rules, url, initiator, lines, now);
        // What a client holds it holds rightly.
        let _store = self.client.store();
        taken
    }

    /// Writes the client's rows that have an end and aren't expired at `now`, in their order, as one list of RON.
    /// Nothing is flushed.
    ///
    /// # Errors
    ///
    /// Those of `Client::save`.
    pub fn save<W: Sink>(&self, writer: &mut W, now: DateTime) -> Result<(), Error>
        ensures ok { OnOk result ((list : _) × IsUtf8 list
            × form.Saves ron_layout (saved (civil_nanos now) self.now.store.rows) list
            × Appends (W.written writer.old) (W.written writer.new) list) }
        ensures bytes { OnOk result (AllByRecursion IsOfBytes (saved (civil_nanos now) self.now.store.rows)) }
        ensures failures { OnOk result (W.failures writer.new ≡ W.failures writer.old) }
        ensures front { IfErr result (λ e. form.IsSaveFault (saved (civil_nanos now) self.now.store.rows) e
            ⊎ form.WritesFront (form.Saves ron_layout (saved (civil_nanos now) self.now.store.rows))
            (W.written writer.old) (W.written writer.new)) }
        ensures err { IfErr result (λ e. form.IsWriteFault (W.failures writer.old) (W.failures writer.new) e
            ⊎ ((writer.new ≡ writer.old) × form.IsSaveFault (saved (civil_nanos now) self.now.store.rows) e)) }
        ensures flushes { W.flushes writer.new ≡ W.flushes writer.old }
    {
        self.client.save(writer, now)
    }

    /// A user agent of these rules with the client that `Client::load` gives. No row that is loaded is judged by the
    /// rules, but for headers ([`UserAgent::header`]).
    ///
    /// # Errors
    ///
    /// Those of `Client::load`. The list of public suffixes is given back with the cause.
    pub fn load<R: Source>(
        alloc: Global,
        list: List,
        rules: Rules,
        reader: &mut R,
        now: DateTime,
    ) -> Result<UserAgent, (Error, List)>
        ensures ok { IfOk result (λ agent. form.OfText (R.left reader.old) (λ text. (loaded : Store)
            × form.Loads ShowsOnly false (civil_nanos now) text loaded
            × ArePicked IsHeldRightly loaded.rows agent.store.rows)) }
        ensures text { IfOk result (λ _. form.OfText (R.left reader.old) IsUtf8) }
        ensures suffixes { IfOk result (λ agent. agent.store.suffixes ≡ list) }
        ensures rules { IfOk result (λ agent. agent.rules ≡ rules) }
        ensures held { IfOk result (λ agent. AreHeldRightly agent.store.rows) }
        ensures failures { IfOk result (λ _. R.failures reader.new ≡ R.failures reader.old) }
        ensures no_read { IfErr result (λ e. (e.0 ≡ Io) ⊎ (R.failures reader.new ≡ R.failures reader.old)) }
        ensures err { IfErr result (λ e.
            form.IsReadFault (R.failures reader.old) (R.failures reader.new) (R.reads reader.new) e.0
            ⊎ (e.0 ≡ OutOfMemory) ⊎ form.OfText (R.left reader.old) (λ text. form.IsRonRefusal text e.0)) }
        ensures list { IfErr result (λ e. e.1 ≡ list) }
    {
        match Client::load(alloc, list, reader, now) {
            Ok(client) => Ok(UserAgent { client, rules }),
            Err(refused) => Err(refused),
        }
    }

    /// Keeps what saving at `now` and loading again at `now` keeps, as `Client::restart` says. The rules stay.
    ///
    /// # Errors
    ///
    /// Those of `Client::restart`. The user agent is then as it was.
    pub fn restart(&mut self, now: DateTime) -> Result<(), Error>
        ensures ok { OnOk result (Keeps self.old.store.rows (civil_nanos now) (civil_nanos now) self.new.store.rows) }
        ensures keys { OnOk result (KeepsKeys self.old.store.rows (civil_nanos now) self.new.store.rows) }
        ensures memory { pos 0 ≤ℤ now.date.year → IfErr result (λ e. e ≡ OutOfMemory) }
        ensures err { IfErr result (form.IsSaveFault (saved (civil_nanos now) self.old.store.rows)) }
        ensures same { OnErr result (self.new ≡ self.old) }
        ensures list { self.new.store.suffixes ≡ self.old.store.suffixes }
        ensures rules { self.new.rules ≡ self.old.rules }
        ensures held { AreHeldRightly self.new.store.rows }
    {
        self.client.restart(now)
    }
}

/// Takes the `Set-Cookie` lines of an answer from this URL at `now` into a client behind these rules, one after
/// another, as [`UserAgent::receive`] does: for a client whose rules another keeps.
///
/// # Errors
///
/// Those of [`UserAgent::receive`].
pub fn receive_all(
    client: &mut Client,
    rules: &Rules,
    url: &Url,
    lines: &[&[u8]],
    now: DateTime,
) -> Result<Vec<Outcome>, Stopped>
    ensures all { IfOk result (λ outcomes. spec.TakesLines rules.now client.old.suffixes client.old.rows url.now
        (civil_nanos now) (map (λ line. line.now) lines.now) outcomes.items client.new.rows) }
    ensures stopped { IfErr result (λ stopped. spec.IsStopped rules.now client.old.suffixes client.old.rows url.now
        (civil_nanos now) (map (λ line. line.now) lines.now) stopped.0 client.new.rows) }
    ensures list { client.new.suffixes ≡ client.old.suffixes }
{
    let (alloc, store) = (client.alloc(), client.store());
    let Ok(secure) = SecurePlaces::of(alloc, store, rules, url, lines.len(), now) else {
        return Err(Stopped(0));
    };
    receive_beside(client, rules, &secure, url, lines, now)
}

// The same where the Secure rows stand at these places.
fn receive_beside(
    client: &mut Client,
    rules: &Rules,
    secure: &SecurePlaces,
    url: &Url,
    lines: &[&[u8]],
    now: DateTime,
) -> Result<Vec<Outcome>, Stopped>
    requires { ArePlacesOf secure.now rules.now url.now (civil_nanos now) client.old.rows }
    ensures all { IfOk result (λ outcomes. spec.TakesLines rules.now client.old.suffixes client.old.rows url.now
        (civil_nanos now) (map (λ line. line.now) lines.now) outcomes.items client.new.rows) }
    ensures stopped { IfErr result (λ stopped. spec.IsStopped rules.now client.old.suffixes client.old.rows url.now
        (civil_nanos now) (map (λ line. line.now) lines.now) stopped.0 client.new.rows) }
    ensures list { client.new.suffixes ≡ client.old.suffixes }
{
    let Ok(mut outcomes) = Vec::with_capacity(client.alloc(), lines.len()) else {
        return Err(Stopped(0));
    };
    for (i, line) in lines.iter().enumerate() {
        match take_own(client, rules, secure, url, line, now) {
            // There is room for one outcome a line, so this push is not refused.
            Ok(outcome) => match outcomes.push(outcome) {
                Ok(()) => {}
                Err(_) => return Err(Stopped(0)),
            },
            Err(_) => return Err(Stopped(i + 1)),
        }
    }
    Ok(outcomes)
}

// Takes one line of an answer of whose request nothing is said: none is kept out.
fn take_own(
    client: &mut Client,
    rules: &Rules,
    secure: &SecurePlaces,
    url: &Url,
    line: &[u8],
    now: DateTime,
) -> Result<Outcome, AllocError>
    requires { ShowPlaces secure.now (civil_nanos now) client.old.rows }
    ensures ok { IfOk result (λ outcome. spec.TakesLine rules.now client.old.suffixes client.old.rows url.now
        (civil_nanos now) line.now outcome client.new.rows) }
    ensures err { OnErr result ((client.new.rows ≡ client.old.rows)
        × spec.AsksForMemory rules.now url.now line.now) }
    ensures list { client.new.suffixes ≡ client.old.suffixes }
{
    let own = rules.of_no_request();
    match take(client, &own, false, secure, url, line, now)?.0 {
        OutcomeFor::Judged(outcome) => Ok(outcome),
        OutcomeFor::KeptOut(_) => unreachable!(),
    }
}

/// With no rule on, a user agent takes lines exactly as its client does; and where neither `secure_wins` nor `control`
/// is, it sends the client's headers.
pub fn no_rules_are_the_client()
    ensures lines { spec.NoRulesAreTheClient }
    ensures headers { OtherHeadersAreTheClients }
{}

/// Where the rules `secure_from_http` and `secure_overlay` are on, whatever lines come from a URL that isn't secure:
/// the Secure rows that aren't expired stay as they are, in their order, and none is added.
pub fn protected_rows_stay()
    ensures { ProtectedRowsStay }
{}
