//! The rules of user agents beyond the store, and which of them are on (the draft that follows RFC 6265, sections 5.5
//! to 5.7).
ghost use Rattle.std.specs.Prelude.{◌≡◌, ◌↔◌, IsTrue};
ghost use Rattle.user_agent.specs.Refusals as spec;

use cookie_client::LineEnd;

/// Why a user agent refuses a line, in the order in which the rules are tried.
#[derive(Clone, Copy, Debug, PartialEq, Eq)]
pub enum Refusal {
    /// It holds a control character other than a tab (section 5.6, step 1).
    Control,
    /// Its name and its value have over 4,096 bytes together (section 5.6, step 5).
    TooLong,
    /// Its name, percent-decoded, begins with `__Secure-` in letters of any case, and it isn't `Secure` or didn't come
    /// over https (sections 4.1.3.1 and 5.7).
    SecurePrefix,
    /// Its name, percent-decoded, begins with `__Host-` in letters of any case, and it isn't `Secure`, of `Path=/` and
    /// without Domain, or didn't come over https (sections 4.1.3.2 and 5.7).
    HostPrefix,
    /// It is `Secure`, and came from a URL that isn't secure (section 5.7).
    SecureFromHttp,
    /// It isn't `Secure`, came from a URL that isn't secure, and a `Secure` cookie that isn't expired has its name, a
    /// domain that domain-matches its own or is domain-matched by it, and a path that its path matches (section 5.7).
    SecureOverlay,
    /// It has `SameSite=None` or `Partitioned`, which ask for `Secure`, isn't `Secure`, and came from a URL that isn't
    /// secure: saved and loaded again it would be `Secure` (section 5.7). Its rule is [`Rules::secure_wins`].
    LacksSecure,
}

/// Which rules are on.
#[derive(Clone, Copy, Debug, PartialEq, Eq)]
pub struct Rules {
    /// Attributes whose value has over 1,024 bytes are passed over (section 5.6, step 6 for an attribute).
    pub long_attributes: bool,
    /// Dates are read as user agents read them (RFC 6265, section 5.1.1).
    pub dates: bool,
    /// Lives of over 400 days are cut at that (sections 5.5, 5.6.1 and 5.6.2).
    pub long_lives: bool,
    /// [`Refusal::Control`] is a rule; and a header leaves out each row in whose name or value such a character stands,
    /// as a text that is loaded may bring it ([`UserAgent::header`](crate::UserAgent::header)).
    pub control: bool,
    pub too_long: bool,
    pub secure_prefix: bool,
    pub host_prefix: bool,
    pub secure_from_http: bool,
    pub secure_overlay: bool,
    /// Of the rows that a request is given, those without `Secure` are left out of its header whose name,
    /// percent-decoded, is that of a `Secure` one among them; and [`Refusal::LacksSecure`] is a rule. No user agent has
    /// it. It rests on `secure_from_http`: without that a `Secure` row may come from anyone.
    pub secure_wins: bool,
    /// To a request that a page of another site starts, and to its answer, a cookie without `SameSite` is as one with
    /// `SameSite=Lax` (sections 5.2, 5.7 and 5.8.3). Some user agents have it. It shows where it is said what starts a
    /// request ([`UserAgent::header_for`](crate::UserAgent::header_for)).
    pub lax_by_default: bool,
    /// A cookie with `SameSite=None` that isn't `Secure` is refused (section 5.7). Some user agents have it. It shows
    /// where it is said what starts a request ([`UserAgent::receive_for`](crate::UserAgent::receive_for)).
    pub none_needs_secure: bool,
}

impl Rules {
    /// The rules that all user agents have, and so all but `secure_wins`, `lax_by_default` and `none_needs_secure`:
    /// the draft asks for the last two, and Firefox and Safari do without them. [`Rules::draft`] has them.
    pub fn browser() -> Rules
        ensures { result ≡ spec.browser_rules }
    {
        Rules {
            long_attributes: true,
            dates: true,
            long_lives: true,
            control: true,
            too_long: true,
            secure_prefix: true,
            host_prefix: true,
            secure_from_http: true,
            secure_overlay: true,
            secure_wins: false,
            lax_by_default: false,
            none_needs_secure: false,
        }
    }

    /// The rules that version 15 of the draft asks for: those of [`Rules::browser`], `lax_by_default` (section 5.8.3,
    /// where the flag isn't `None`; section 5.7, step 18) and `none_needs_secure` (section 5.7, step 19).
    pub fn draft() -> Rules
        ensures { result ≡ spec.draft_rules }
    {
        Rules {
            lax_by_default: true,
            none_needs_secure: true,
            ..Rules::browser()
        }
    }

    /// No rule: a user agent with it is its client.
    pub fn none() -> Rules
        ensures { result ≡ spec.no_rules }
    {
        Rules {
            long_attributes: false,
            dates: false,
            long_lives: false,
            control: false,
            too_long: false,
            secure_prefix: false,
            host_prefix: false,
            secure_from_http: false,
            secure_overlay: false,
            secure_wins: false,
            lax_by_default: false,
            none_needs_secure: false,
        }
    }

    /// These rules where nothing is said of what started a request: [`Rules::none_needs_secure`] is off.
    pub(crate) fn of_no_request(&self) -> Rules
        ensures { result ≡ spec.of_no_request self.now }
    {
        Rules {
            none_needs_secure: false,
            ..*self
        }
    }

    /// Whether the rule is on.
    pub fn has(&self, rule: Refusal) -> bool
        ensures { result ≡ spec.is_on self.now rule }
    {
        match rule {
            Refusal::Control => self.control,
            Refusal::TooLong => self.too_long,
            Refusal::SecurePrefix => self.secure_prefix,
            Refusal::HostPrefix => self.host_prefix,
            Refusal::SecureFromHttp => self.secure_from_http,
            Refusal::SecureOverlay => self.secure_overlay,
            Refusal::LacksSecure => self.secure_wins,
        }
    }
}

/// What became of a line.
#[derive(Clone, Copy, Debug, PartialEq, Eq)]
pub enum Outcome {
    /// No rule refused it, and the client took it so.
    Taken(LineEnd),
    /// This rule refused it, and nothing changed.
    Refused(Refusal),
}
