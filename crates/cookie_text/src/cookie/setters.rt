//! What sets the parts of a cookie.
ghost use Rattle.std.specs.Prelude.{◌≡◌, [], Some, None, option_map, string_bytes, pos};
ghost use Rattle.jiff.specs.Words.{signed_nanos, civil_nanos};
ghost use Rattle.cookie_text.specs.Setting as spec;

use crate::cookie::Cookie;
use crate::draft::SameSite;
use crate::expiration::Expiration;
use crate::part::Part;
use jiff::SignedDuration;
use jiff::civil::DateTime;

const TWENTY_YEARS_HOURS: i64 = 365 * 20 * 24;

const ONE_YEAR_HOURS: i64 = 365 * 24;

impl<'c> Cookie<'c> {
    /// Sets the name.
    pub fn set_name(&mut self, name: &'c str)
        ensures { self.new ≡ spec.with_name self.old name.now }
    {
        self.name = Part::Given(name);
    }

    /// Sets the name to an owned text.
    pub fn set_name_owned(&mut self, name: String)
        ensures { self.new ≡ spec.with_name self.old (string_bytes name) }
    {
        self.name = Part::Own(name);
    }

    /// Sets the value.
    pub fn set_value(&mut self, value: &'c str)
        ensures { self.new ≡ spec.with_value self.old value.now }
    {
        self.value = Part::Given(value);
    }

    /// Sets the value to an owned text.
    pub fn set_value_owned(&mut self, value: String)
        ensures { self.new ≡ spec.with_value self.old (string_bytes value) }
    {
        self.value = Part::Own(value);
    }

    /// Sets whether scripts are to be kept from the cookie, or takes the flag away.
    pub fn set_http_only(&mut self, value: Option<bool>)
        ensures { self.new ≡ spec.with_http_only self.old value }
    {
        self.http_only = value;
    }

    /// Sets whether the cookie is for secure requests alone, or takes the flag away.
    pub fn set_secure(&mut self, value: Option<bool>)
        ensures { self.new ≡ spec.with_secure self.old value }
    {
        self.secure = value;
    }

    /// Sets which requests from other sites carry the cookie, or takes that away.
    pub fn set_same_site(&mut self, value: Option<SameSite>)
        ensures { self.new ≡ spec.with_same_site self.old value }
    {
        self.same_site = value;
    }

    /// Sets whether the cookie is kept apart for each top-level site, or takes the flag away.
    pub fn set_partitioned(&mut self, value: Option<bool>)
        ensures { self.new ≡ spec.with_partitioned self.old value }
    {
        self.partitioned = value;
    }

    /// Sets how long the cookie lives, or takes that away.
    pub fn set_max_age(&mut self, value: Option<SignedDuration>)
        ensures { self.new ≡ spec.with_max_age self.old (option_map signed_nanos value) }
    {
        self.max_age = value;
    }

    /// Sets the path.
    pub fn set_path(&mut self, path: &'c str)
        ensures { self.new ≡ spec.with_path self.old (Some path.now) }
    {
        self.path = Some(Part::Given(path));
    }

    /// Sets the path to an owned text.
    pub fn set_path_owned(&mut self, path: String)
        ensures { self.new ≡ spec.with_path self.old (Some (string_bytes path)) }
    {
        self.path = Some(Part::Own(path));
    }

    /// Takes the path away.
    pub fn unset_path(&mut self)
        ensures { self.new ≡ spec.with_path self.old None }
    {
        self.path = None;
    }

    /// Sets the domain.
    pub fn set_domain(&mut self, domain: &'c str)
        ensures { self.new ≡ spec.with_domain self.old (Some domain.now) }
    {
        self.domain = Some(Part::Given(domain));
    }

    /// Sets the domain to an owned text.
    pub fn set_domain_owned(&mut self, domain: String)
        ensures { self.new ≡ spec.with_domain self.old (Some (string_bytes domain)) }
    {
        self.domain = Some(Part::Own(domain));
    }

    /// Takes the domain away.
    pub fn unset_domain(&mut self)
        ensures { self.new ≡ spec.with_domain self.old None }
    {
        self.domain = None;
    }

    /// Sets when the cookie ends; a moment after 9999-12-31T23:59:59.999999 counts as that one.
    pub fn set_expires(&mut self, expires: Expiration)
        ensures { spec.SetsExpires self.old expires self.new }
    {
        self.expires = Some(expires.at_most_latest());
    }

    /// Takes away when the cookie ends.
    pub fn unset_expires(&mut self)
        ensures { self.new ≡ spec.with_expires self.old None }
    {
        self.expires = None;
    }

    /// Makes the cookie live for twenty years of 365 days from `now` on.
    ///
    /// Both max-age and expiry are set; the sum stops at the end of the calendar.
    pub fn make_permanent(&mut self, now: DateTime)
        ensures { spec.MakesPermanent self.old now self.new }
    {
        let lifetime = SignedDuration::from_hours(TWENTY_YEARS_HOURS);
        self.set_max_age(Some(lifetime));
        self.set_expires(Expiration::DateTime(moved(now, lifetime)));
    }

    /// Makes the cookie one that takes a cookie of its name out of a client.
    ///
    /// Its value is then empty, its max-age zero, and it ended 365 days before `now`; the
    /// difference stops at the beginning of the calendar.
    pub fn make_removal(&mut self, now: DateTime)
        ensures { spec.MakesRemoval self.old now self.new }
    {
        let back = SignedDuration::from_hours(-ONE_YEAR_HOURS);
        self.set_value("");
        self.set_max_age(Some(SignedDuration::ZERO));
        self.set_expires(Expiration::DateTime(moved(now, back)));
    }
}

// The moment so long after `now`, or the end of the calendar on that side.
fn moved(now: DateTime, by: SignedDuration) -> DateTime
    ensures { spec.IsAfter now (signed_nanos by) result }
{
    now.saturating_add(by)
}
