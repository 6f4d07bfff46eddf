//! A play: one client, and the sites that it visits.
ghost use Rattle.std.specs.Prelude.{◌≡◌, ◌≢◌, ◌⊎◌, ◌++◌, ◌∷◌, [], List, None, map, IfOk, IfErr, OnOk, OnErr};
ghost use Rattle.std.specs.Prelude.{MatchResult};
ghost use Rattle.std.specs.List.{AllByRecursion};
ghost use Rattle.std.specs.Option.{option_to_list};
ghost use Rattle.jiff.specs.Words.{civil_nanos};
ghost use Rattle.cookie_client.specs.declared.command.Reading.{Reading};
ghost use Rattle.cookie_run.specs.Moments.{AllFollow, IsMoment, last_of, the_beginning};
ghost use Rattle.cookie_client.specs.Keeping.{Keeps};
ghost use Rattle.cookie_client.specs.Accept.{Takes};
ghost use Rattle.cookie_run.specs.Acts.{acts_of, act_of, arrival_of, moments_in, moments_of, arrival_moments};
ghost use Rattle.cookie_client.specs.Steps.{Visits, Arrives, RemoveTells, GetTells, Delivers};
ghost use Rattle.cookie_run.specs.Stops.{StopsInside, GoesOnBy};
ghost use Rattle.cookie_run.specs.Play.{IsRun, IsRunUntil};
ghost use Rattle.cookie_run.specs.Drawn.{DrawsSo, IsRunBy, IsRunUntilBy, StepBy, StopsBy, ReadsFrontBy, ReadsAllBy};
ghost use Rattle.cookie_run.specs.Drawn.{CommandsDraw, CommandDraws, SetDraws, FrontDraws, AllDraw, IsDrawnInVain};
ghost use Rattle.cookie_client.specs.declared.command.Command.TheVariants.{Set};
ghost use Rattle.cookie_run.specs.Readings.{MayRead, NeedsNoNonce, ActNeedsNoNonce};
ghost use Rattle.cookie_client.specs.Ways.{set_refusal};
ghost use Rattle.cookie_run.specs.Headline.{SitesReadTheirOwn, SitesReadTheirOwnUntil};
ghost use Rattle.cookie_run.specs.HostHeadline.{HostsReadTheirOwn, HostsReadTheirOwnUntil};
ghost use Rattle.cookie_run.specs.Strangers.{StrangersDontShow, StrangersDontShowUntil};

use crate::laws::{hosts_read_their_own, sites_read_their_own, strangers_dont_show};
use crate::moment::{beginning, come_to};
use crate::step::{Command, Delivery, Fault, FaultKind, Reading, SessionError, Step, Way};
use crate::text::{Text, bytes_of, views_of};
use cookie::{Cookie, Key};
use cookie_client::Client;
use cookie_client::session::{Session, copy_of};
use cookie_store::Error;
use jiff::civil::DateTime;
use rand_core::TryRng;
use std::alloc::{AllocError, Global};
use url::Url;

/// What the steps read, for a client that begins with no row and this list of public suffixes, where
/// every site has this key and draws its nonces from this generator.
///
/// An exchange opens a session on the header of its request, does its commands, removals at the moment
/// of the request, and hands the lines of the session to the client at the moment of delivery, if there
/// is one. A refused command reads as `Refused` and the play goes on. A restart reads nothing: of the
/// client's cookies those that have an end which is to come are kept.
///
/// # Errors
///
/// A `Fault` with the step, counted from 1, and what was read so far: `Moment` where a moment isn't a
/// whole second of the years 1971 to 9998, `Back` where it is before an earlier one, `Memory` where
/// memory was refused. Each moment is tested when the play comes to it, that of a delivery after the
/// commands.
pub fn play<R: TryRng>(
    alloc: Global,
    list: publicsuffix::List,
    key: &Key,
    steps: &[Step],
    rng: &mut R,
) -> Result<Vec<Reading>, Fault>
    ensures run { IfOk result (λ readings. IsRun list key.now (acts_of steps.now) readings.items) }
    ensures run_until { IfErr result (λ fault.
        IsRunUntil list key.now (acts_of steps.now) fault.step fault.kind fault.readings.items) }
    ensures sites { IfOk result (λ readings. SitesReadTheirOwn list (acts_of steps.now) readings.items) }
    ensures sites_until { IfErr result (λ fault.
        SitesReadTheirOwnUntil list (acts_of steps.now) fault.step fault.kind fault.readings.items) }
    ensures hosts { IfOk result (λ readings. HostsReadTheirOwn (acts_of steps.now) readings.items) }
    ensures hosts_until { IfErr result (λ fault.
        HostsReadTheirOwnUntil (acts_of steps.now) fault.step fault.kind fault.readings.items) }
    ensures strangers { IfOk result (λ readings.
        StrangersDontShow list key.now (acts_of steps.now) readings.items) }
    ensures strangers_until { IfErr result (λ fault.
        StrangersDontShowUntil list key.now (acts_of steps.now) fault.step fault.readings.items) }
    ensures draws { IfOk result (λ readings. DrawsSo R.may_fill R.Error rng.old
        (λ drawn. IsRunBy drawn list key.now (acts_of steps.now) readings.items) rng.new) }
    ensures draws_until { IfErr result (λ fault. DrawsSo R.may_fill R.Error rng.old
        (λ drawn. IsRunUntilBy drawn list key.now (acts_of steps.now) fault.step fault.kind fault.readings.items)
        rng.new) }
    ensures unasked { AllByRecursion ActNeedsNoNonce (acts_of steps.now) → rng.new ≡ rng.old }
    ensures failed { MatchResult result (λ readings. AllByRecursion (MayRead R.Error) readings.items)
        (λ fault. AllByRecursion (MayRead R.Error) fault.readings.items) }
    ensures moments { OnOk result (AllFollow the_beginning (moments_of (acts_of steps.now))) }
{
    sites_read_their_own(key);
    hosts_read_their_own(key);
    strangers_dont_show();
    let mut client = Client::new(alloc, list);
    let mut last = beginning();
    let mut readings = Vec::new(alloc);
    for (i, step) in steps.iter().enumerate() {
        if let Err(kind) = act(alloc, key, &mut client, &mut last, step, &mut readings, rng) {
            return Err(Fault {
                step: i + 1,
                kind,
                readings,
            });
        }
    }
    Ok(readings)
}

// One step of a play. `last` is the moment that it came to last.
fn act<R: TryRng>(
    alloc: Global,
    key: &Key,
    client: &mut Client,
    last: &mut DateTime,
    step: &Step,
    readings: &mut Vec<Reading>,
    rng: &mut R,
) -> Result<(), FaultKind>
    ensures step { OnOk result (DrawsSo R.may_fill R.Error rng.old (λ drawn. (told : List Reading)
        × (readings.new.items ≡ readings.old.items ++ told) × StepBy drawn client.old.suffixes key.now client.old.rows
        (act_of step.now) told client.new.rows) rng.new) }
    ensures list { client.new.suffixes ≡ client.old.suffixes }
    ensures moments { OnOk result (AllFollow (civil_nanos last.old) (moments_in (act_of step.now))
        × (civil_nanos last.new ≡ last_of (civil_nanos last.old) (moments_in (act_of step.now)))) }
    ensures err { IfErr result (λ kind. DrawsSo R.may_fill R.Error rng.old (λ drawn. StopsBy drawn key.now
        client.old.rows kind (civil_nanos last.old) (act_of step.now) readings.old.items readings.new.items) rng.new) }
    ensures failed { AllByRecursion (MayRead R.Error) readings.old.items
        → AllByRecursion (MayRead R.Error) readings.new.items }
    ensures unasked { ActNeedsNoNonce (act_of step.now) → rng.new ≡ rng.old }
{
    match step {
        Step::Exchange {
            url,
            at,
            commands,
            delivery,
        } => {
            come_to(last, *at)?;
            exchange(
                alloc, key, client, last, url, commands, *delivery, readings, rng,
            )
        }
        Step::Foreign { url, lines, at } => {
            come_to(last, *at)?;
            let lines = views_of(alloc, lines)?;
            receive(client, url, &lines, *at)
        }
        Step::Header { url, at } => {
            come_to(last, *at)?;
            let header = client.header(url, *at)?;
            readings.push(Reading::Header(Text::of(header)))?;
            Ok(())
        }
        Step::Restart { at } => {
            come_to(last, *at)?;
            restart(client, *at)
        }
    }
}

// An exchange, once its moment is come to: a session on the header of the request, and what it does.
fn exchange<R: TryRng>(
    alloc: Global,
    key: &Key,
    client: &mut Client,
    last: &mut DateTime,
    url: &Url,
    commands: &[Command],
    delivery: Delivery,
    readings: &mut Vec<Reading>,
    rng: &mut R,
) -> Result<(), FaultKind>
    ensures rows { OnOk result (DrawsSo R.may_fill R.Error rng.old (λ drawn. (told : List Reading)
        × (readings.new.items ≡ readings.old.items ++ told) × StepBy drawn client.old.suffixes key.now client.old.rows
        (Visits url.now (civil_nanos last.old) commands.now (arrival_of delivery)) told client.new.rows) rng.new) }
    ensures list { client.new.suffixes ≡ client.old.suffixes }
    ensures moments { OnOk result (AllFollow (civil_nanos last.old) (arrival_moments (arrival_of delivery))
        × (civil_nanos last.new ≡ last_of (civil_nanos last.old) (arrival_moments (arrival_of delivery)))) }
    ensures err { IfErr result (λ kind. DrawsSo R.may_fill R.Error rng.old (λ drawn. StopsInside kind
        (civil_nanos last.old) (arrival_of delivery) readings.old.items (ReadsFrontBy drawn key.now client.old.rows
        (Visits url.now (civil_nanos last.old) commands.now (arrival_of delivery)))
        (ReadsAllBy drawn key.now client.old.rows
        (Visits url.now (civil_nanos last.old) commands.now (arrival_of delivery))) readings.new.items) rng.new) }
    ensures failed { AllByRecursion (MayRead R.Error) readings.old.items
        → AllByRecursion (MayRead R.Error) readings.new.items }
    ensures unasked { AllByRecursion NeedsNoNonce commands.now → rng.new ≡ rng.old }
{
    let at = *last;
    let header = client.header(url, at)?;
    let mut session = Session::open(alloc, header.as_bytes(), copy_of(key))?;
    converse(
        alloc,
        client,
        last,
        url,
        commands,
        delivery,
        &mut session,
        readings,
        rng,
    )
}

// The rest of an exchange whose session is open: its commands, and the delivery of its lines.
fn converse<R: TryRng>(
    alloc: Global,
    client: &mut Client,
    last: &mut DateTime,
    url: &Url,
    commands: &[Command],
    delivery: Delivery,
    session: &mut Session,
    readings: &mut Vec<Reading>,
    rng: &mut R,
) -> Result<(), FaultKind>
    ensures rows { OnOk result (DrawsSo R.may_fill R.Error rng.old (λ drawn. (told : List Reading)
        × (readings.new.items ≡ readings.old.items ++ told)
        × CommandsDraw drawn session.old (civil_nanos last.old) commands.now told session.new
        × Delivers client.old.suffixes client.old.rows url.now session.new.jar (arrival_of delivery)
        client.new.rows) rng.new) }
    ensures list { client.new.suffixes ≡ client.old.suffixes }
    ensures moments { OnOk result (AllFollow (civil_nanos last.old) (arrival_moments (arrival_of delivery))
        × (civil_nanos last.new ≡ last_of (civil_nanos last.old) (arrival_moments (arrival_of delivery)))) }
    ensures err { IfErr result (λ kind. DrawsSo R.may_fill R.Error rng.old (λ drawn. StopsInside kind
        (civil_nanos last.old) (arrival_of delivery) readings.old.items
        (FrontDraws drawn session.old (civil_nanos last.old) commands.now)
        (AllDraw drawn session.old (civil_nanos last.old) commands.now) readings.new.items) rng.new) }
    ensures failed { AllByRecursion (MayRead R.Error) readings.old.items
        → AllByRecursion (MayRead R.Error) readings.new.items }
    ensures unasked { AllByRecursion NeedsNoNonce commands.now → rng.new ≡ rng.old }
{
    obey_all(alloc, session, *last, commands, readings, rng)?;
    match delivery {
        Delivery::Lost => Ok(()),
        Delivery::At(moment) => {
            come_to(last, moment)?;
            deliver(alloc, client, url, session, moment)
        }
    }
}

// Hands the lines of a session to the client.
fn deliver(
    alloc: Global,
    client: &mut Client,
    url: &Url,
    session: &Session,
    moment: DateTime,
) -> Result<(), FaultKind>
    ensures rows { OnOk result
        (Delivers client.old.suffixes client.old.rows url.now session.now.jar (Arrives (civil_nanos moment))
        client.new.rows) }
    ensures list { client.new.suffixes ≡ client.old.suffixes }
    ensures err { IfErr result (λ kind. kind ≡ FaultKind.Memory) }
{
    let Ok(lines) = session.close() else {
        return Err(FaultKind::Memory);
    };
    let lines = bytes_of(alloc, &lines)?;
    receive(client, url, &lines, moment)
}

// Hands lines to the client.
fn receive(
    client: &mut Client,
    url: &Url,
    lines: &[&[u8]],
    moment: DateTime,
) -> Result<(), FaultKind>
    ensures rows { OnOk result (Takes client.old.suffixes client.old.rows url.now (civil_nanos moment)
        (map (λ line. line.now) lines.now) client.new.rows) }
    ensures list { client.new.suffixes ≡ client.old.suffixes }
    ensures err { IfErr result (λ kind. kind ≡ FaultKind.Memory) }
{
    match client.receive(url, lines, moment) {
        Ok(_) => Ok(()),
        Err(_) => Err(FaultKind::Memory),
    }
}

// Restarts the client. A cookie that is kept ends after this moment, so in no year below 0.
fn restart(client: &mut Client, moment: DateTime) -> Result<(), FaultKind>
    requires { IsMoment (civil_nanos moment) }
    ensures rows { OnOk result
        (Keeps client.old.rows (civil_nanos moment) (civil_nanos moment) client.new.rows) }
    ensures list { client.new.suffixes ≡ client.old.suffixes }
    ensures err { IfErr result (λ kind. kind ≡ FaultKind.Memory) }
{
    match client.restart(moment) {
        Ok(()) => Ok(()),
        Err(Error::OutOfMemory) => Err(FaultKind::Memory),
        Err(_) => Err(FaultKind::Restart),
    }
}

// The commands of a session that was opened at this moment, in their order.
fn obey_all<R: TryRng>(
    alloc: Global,
    session: &mut Session,
    at: DateTime,
    commands: &[Command],
    readings: &mut Vec<Reading>,
    rng: &mut R,
) -> Result<(), AllocError>
    ensures ok { OnOk result (DrawsSo R.may_fill R.Error rng.old (λ drawn. (told : List Reading)
        × (readings.new.items ≡ readings.old.items ++ told)
        × CommandsDraw drawn session.old (civil_nanos at) commands.now told session.new) rng.new) }
    ensures err { OnErr result (DrawsSo R.may_fill R.Error rng.old (λ drawn. GoesOnBy readings.old.items
        (FrontDraws drawn session.old (civil_nanos at) commands.now) readings.new.items) rng.new) }
    ensures failed { AllByRecursion (MayRead R.Error) readings.old.items
        → AllByRecursion (MayRead R.Error) readings.new.items }
    ensures unasked { AllByRecursion NeedsNoNonce commands.now → rng.new ≡ rng.old }
{
    for command in commands {
        if let Some(reading) = obey(alloc, session, at, command, rng)? {
            readings.push(reading)?;
        }
    }
    Ok(())
}

// One command of a session that was opened at this moment, and what it reads.
fn obey<R: TryRng>(
    alloc: Global,
    session: &mut Session,
    at: DateTime,
    command: &Command,
    rng: &mut R,
) -> Result<Option<Reading>, AllocError>
    ensures ok { IfOk result (λ reading. DrawsSo R.may_fill R.Error rng.old (λ drawn. CommandDraws drawn session.old
        (civil_nanos at) command.now (option_to_list reading) session.new) rng.new) }
    ensures err { OnErr result
        (DrawsSo R.may_fill R.Error rng.old (IsDrawnInVain (command.now ∷ [])) rng.new) }
    ensures failed { IfOk result (λ reading. AllByRecursion (MayRead R.Error) (option_to_list reading)) }
    ensures unasked { NeedsNoNonce command.now → rng.new ≡ rng.old }
{
    match command {
        Command::Set(way, cookie) => set(alloc, session, *way, cookie, rng),
        Command::Remove(way, name) => remove(session, *way, name, at),
        Command::Get(way, name) => get(session, *way, name),
    }
}

// Sets a copy of a cookie, and gives what that reads.
fn set<R: TryRng>(
    alloc: Global,
    session: &mut Session,
    way: Way,
    cookie: &Cookie<'static>,
    rng: &mut R,
) -> Result<Option<Reading>, AllocError>
    ensures ok { IfOk result (λ reading. DrawsSo R.may_fill R.Error rng.old (λ drawn.
        SetDraws drawn session.old way cookie.now (option_to_list reading) session.new) rng.new) }
    ensures err { OnErr result
        (DrawsSo R.may_fill R.Error rng.old (IsDrawnInVain (Set way cookie.now ∷ [])) rng.new) }
    ensures failed { IfOk result (λ reading. AllByRecursion (MayRead R.Error) (option_to_list reading)) }
    ensures unasked { (way ≢ Way.Sealed) ⊎ (set_refusal way cookie.now.cookie ≢ None) → rng.new ≡ rng.old }
{
    let cookie = cookie.clone(alloc)?;
    let end = session.set(way, cookie, rng);
    match end {
        Ok(()) => Ok(None),
        Err(SessionError::OutOfMemory) => Err(AllocError),
        Err(error) => Ok(Some(Reading::Refused(error))),
    }
}

// Removes the cookie of a name at this moment, and gives what that reads.
fn remove(
    session: &mut Session,
    way: Way,
    name: &Text,
    at: DateTime,
) -> Result<Option<Reading>, AllocError>
    ensures ok { IfOk result (λ reading.
        RemoveTells session.old (civil_nanos at) way name.now (option_to_list reading) session.new) }
    ensures failed { IfOk result (λ reading. AllByRecursion (MayRead ⊥) (option_to_list reading)) }
{
    match session.remove(way, name.as_str(), at) {
        Ok(()) => Ok(None),
        Err(SessionError::OutOfMemory) => Err(AllocError),
        Err(error) => Ok(Some(Reading::Refused(error))),
    }
}

// What a name reads as.
fn get(session: &Session, way: Way, name: &Text) -> Result<Option<Reading>, AllocError>
    ensures { IfOk result (λ reading. GetTells session.now way name.now (option_to_list reading)) }
{
    match session.get(way, name.as_str()) {
        Ok(value) => Ok(Some(Reading::Value(way, name.clone()?, value.map(Text::of)))),
        Err(SessionError::OutOfMemory) => Err(AllocError),
        Err(error) => Ok(Some(Reading::Refused(error))),
    }
}
