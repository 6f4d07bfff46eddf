//! The rules of user agents that are asked for, by their names.
ghost use Rattle.std.specs.Prelude.{◌≡◌, IsNone, Some};
ghost use Rattle.user_agent.specs.Refusals.{browser_rules};

use user_agent::Rules;

/// The rules of a list: those of browsers where none is asked. None where it is no list.
pub(crate) fn rules_of(list: Option<&str>) -> Option<Rules>
    ensures { IsNone list.entry → result ≡ Some browser_rules }
{
    match list {
        Some("none") => Some(Rules::none()),
        Some("browser") | None => Some(Rules::browser()),
        Some(names) => rules_named(names),
    }
}

// Just the rules whose names stand between commas.
fn rules_named(names: &str) -> Option<Rules> {
    let mut rules = Rules::none();
    for name in names.split(',') {
        turn_on(&mut rules, name)?;
    }
    Some(rules)
}

// Turns the rule of this name on, where there is one: `secure_wins` has no name here.
fn turn_on(rules: &mut Rules, name: &str) -> Option<()> {
    match name {
        "long-attributes" => rules.long_attributes = true,
        "dates" => rules.dates = true,
        "long-lives" => rules.long_lives = true,
        "control" => rules.control = true,
        "too-long" => rules.too_long = true,
        "secure-prefix" => rules.secure_prefix = true,
        "host-prefix" => rules.host_prefix = true,
        "secure-from-http" => rules.secure_from_http = true,
        "secure-overlay" => rules.secure_overlay = true,
        "lax-by-default" => rules.lax_by_default = true,
        "none-needs-secure" => rules.none_needs_secure = true,
        _ => return None,
    }
    Some(())
}
