//! The rules of user agents, by their flags, and the numbers of what becomes of a line behind them.
ghost use Rattle.std.specs.Prelude.{◌≡◌, IfOk, IfErr};
ghost use Rattle.fonnalich_c.specs.Rules as spec;

use crate::refusal::{Refusal, end_number};
use user_agent::{Outcome, OutcomeFor, Refusal as Rule, Rules, SiteRefusal};

/// The rules whose flags are set in a number.
pub fn rules_of(number: i64) -> Result<Rules, Refusal>
    ensures ok { IfOk result (spec.IsFlags number) }
    ensures err { IfErr result (λ refused. (refused ≡ Refusal.Rules) × spec.IsNoFlags number) }
{
    if 0 <= number && number < 4096 {
        return Ok(ruled(number as u64));
    }
    Err(Refusal::Rules)
}

// The rules whose flags are set.
fn ruled(flags: u64) -> Rules
    ensures { result ≡ spec.ruled flags }
{
    Rules {
        control: flags % 2 == 1,
        too_long: flags / 2 % 2 == 1,
        secure_prefix: flags / 4 % 2 == 1,
        host_prefix: flags / 8 % 2 == 1,
        secure_from_http: flags / 16 % 2 == 1,
        secure_overlay: flags / 32 % 2 == 1,
        long_attributes: flags / 64 % 2 == 1,
        dates: flags / 128 % 2 == 1,
        long_lives: flags / 256 % 2 == 1,
        secure_wins: flags / 512 % 2 == 1,
        lax_by_default: flags / 1024 % 2 == 1,
        none_needs_secure: flags / 2048 % 2 == 1,
    }
}

/// The number of what became of a line, where it is said what started the request.
pub fn outcome_for_number(outcome: OutcomeFor) -> u8
    ensures { result ≡ spec.outcome_for_number outcome }
{
    match outcome {
        OutcomeFor::Judged(outcome) => outcome_number(outcome),
        OutcomeFor::KeptOut(cause) => site_refusal_number(cause),
    }
}

fn site_refusal_number(cause: SiteRefusal) -> u8
    ensures { result ≡ spec.site_refusal_number cause }
{
    match cause {
        SiteRefusal::CrossSite => 27,
        SiteRefusal::NoneLacksSecure => 28,
    }
}

/// The number of what became of a line behind rules.
pub fn outcome_number(outcome: Outcome) -> u8
    ensures { result ≡ spec.outcome_number outcome }
{
    match outcome {
        Outcome::Taken(end) => end_number(end),
        Outcome::Refused(rule) => rule_number(rule),
    }
}

fn rule_number(rule: Rule) -> u8
    ensures { result ≡ spec.rule_number rule }
{
    match rule {
        Rule::Control => 20,
        Rule::TooLong => 21,
        Rule::SecurePrefix => 22,
        Rule::HostPrefix => 23,
        Rule::SecureFromHttp => 24,
        Rule::SecureOverlay => 25,
        Rule::LacksSecure => 26,
    }
}
