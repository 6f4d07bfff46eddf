//! The cookie itself: what it holds, and how it is made and read out.
ghost use Rattle.std.specs.Prelude.{◌≡◌, ◌↔◌, ℕ, List, [], Some, None, IfOk, IsTrue, option_copied, option_map};
ghost use Rattle.std.specs.Prelude.{string_bytes};
ghost use Rattle.jiff.specs.Words.{signed_nanos};
ghost use Rattle.cookie_text.specs.AttributeView.{attribute_view};
ghost use Rattle.cookie_text.specs.Decoding.{DecodedBegins};
ghost use Rattle.cookie_text.specs.PartText.{part_text, raw_text};
ghost use Rattle.cookie_text.specs.Record.{bare, unsliced, domain_of, without_dot, moment_of, IsUnquoted};
ghost use Rattle.cookie_text.specs.Steps.{with_attribute, with_slice};

mod owned;
mod printed;
mod setters;

use crate::attribute::Attribute;
use crate::builder::CookieBuilder;
use crate::decode::decoded_begins;
use crate::draft::SameSite;
use crate::expiration::Expiration;
use crate::part::Part;
use jiff::SignedDuration;
use jiff::civil::DateTime;
use std::marker::Model;

/// An HTTP cookie (RFC 6265): a name, a value and attributes.
///
/// Its texts are borrowed for `'c`, or owned. A cookie that was read from a borrowed text holds
/// slices of that text, which `name_raw` and its like hand out.
#[derive(Debug, Drop)]
pub struct Cookie<'c> {
    name: Part<'c>,
    value: Part<'c>,
    http_only: Option<bool>,
    secure: Option<bool>,
    partitioned: Option<bool>,
    same_site: Option<SameSite>,
    max_age: Option<SignedDuration>,
    path: Option<Part<'c>>,
    domain: Option<Part<'c>>,
    expires: Option<Expiration>,
}

impl<'c> Model for Cookie<'c> {
    ghost use Rattle.cookie_text.specs.Record.{Seen};

    ghost Value = { Seen };

    ghost use Rattle.cookie_text.specs.View.{seen_of};

    ghost view = { seen_of };
}

impl<'c> Cookie<'c> {
    /// A cookie of this name and value, with no attribute.
    pub fn new(name: &'c str, value: &'c str) -> Cookie<'c>
        ensures { result ≡ unsliced (bare name.now value.now) }
    {
        Cookie::of_parts(Part::Given(name), Part::Given(value))
    }

    /// A cookie of this owned name and value, with no attribute.
    pub fn new_owned(name: String, value: String) -> Cookie<'c>
        ensures { result ≡ unsliced (bare (string_bytes name) (string_bytes value)) }
    {
        Cookie::of_parts(Part::Own(name), Part::Own(value))
    }

    /// A cookie of this name with an empty value and no attribute.
    pub fn named(name: &'c str) -> Cookie<'c>
        ensures { result ≡ unsliced (bare name.now []) }
    {
        Cookie::new(name, "")
    }

    /// A builder that starts from this cookie.
    pub fn build(base: Cookie<'c>) -> CookieBuilder<'c>
        ensures { result ≡ base.entry }
    {
        CookieBuilder::from_cookie(base)
    }

    // A cookie of these parts, with no attribute.
    pub(crate) fn of_parts(name: Part<'c>, value: Part<'c>) -> Cookie<'c>
        ensures cookie { result.cookie ≡ bare (part_text name.entry) (part_text value.entry) }
        ensures name { result.raw.name ≡ raw_text name.entry }
        ensures value { result.raw.value ≡ raw_text value.entry }
        ensures path { result.raw.path ≡ None }
        ensures domain { result.raw.domain ≡ None }
    {
        Cookie {
            name,
            value,
            http_only: None,
            secure: None,
            partitioned: None,
            same_site: None,
            max_age: None,
            path: None,
            domain: None,
            expires: None,
        }
    }

    // Takes an attribute of the text that the cookie is read from.
    pub(crate) fn take(&mut self, attribute: Attribute<'c>)
        ensures cookie { self.new.cookie
            ≡ with_attribute self.old.cookie (attribute_view attribute.entry) }
        ensures raw { self.new.raw ≡ with_slice self.old.raw (attribute_view attribute.entry) }
    {
        match attribute {
            Attribute::HttpOnly => self.http_only = Some(true),
            Attribute::Secure => self.secure = Some(true),
            Attribute::Partitioned => self.partitioned = Some(true),
            Attribute::SameSite(same_site) => self.same_site = Some(same_site),
            Attribute::MaxAge(seconds) => {
                self.max_age = Some(SignedDuration::from_secs(seconds))
            }
            Attribute::Path(path) => self.path = Some(Part::Source(path)),
            Attribute::Domain(domain) => self.domain = Some(Part::Source(domain)),
            Attribute::Expires(moment) => self.expires = Some(Expiration::DateTime(moment)),
        }
    }

    /// The name.
    pub fn name(&self) -> &str
        ensures { result.now ≡ self.now.cookie.name }
    {
        self.name.as_str()
    }

    /// Whether the name, percent-decoded, begins with the text's bytes; the case of letters counts.
    /// No memory is taken.
    pub fn decoded_name_begins(&self, text: &str) -> bool
        ensures { IsTrue result ↔ DecodedBegins self.now.cookie.name text.now }
    {
        decoded_begins(self.name(), text.as_bytes())
    }

    /// The value.
    pub fn value(&self) -> &str
        ensures { result.now ≡ self.now.cookie.value }
    {
        self.value.as_str()
    }

    /// The value without one pair of double quotes round it, where it has both.
    pub fn value_trimmed(&self) -> &str
        ensures { IsUnquoted self.now.cookie.value result.now }
    {
        without_quotes(self.value())
    }

    /// The name and the value.
    pub fn name_value(&self) -> (&str, &str)
        ensures name { result.0.now ≡ self.now.cookie.name }
        ensures value { result.1.now ≡ self.now.cookie.value }
    {
        (self.name(), self.value())
    }

    /// The name, and the value without one pair of double quotes round it.
    pub fn name_value_trimmed(&self) -> (&str, &str)
        ensures name { result.0.now ≡ self.now.cookie.name }
        ensures value { IsUnquoted self.now.cookie.value result.1.now }
    {
        (self.name(), self.value_trimmed())
    }

    /// The name as it stands in the borrowed text that was read.
    ///
    /// `None` where the cookie was not read from a text, the text is owned, the name was set
    /// since, or reading percent-decoded the name or the value.
    pub fn name_raw(&self) -> Option<&'c str>
        ensures { option_copied result ≡ self.now.raw.name }
    {
        self.name.raw()
    }

    /// The value as it stands in the borrowed text that was read.
    ///
    /// `None` where the cookie was not read from a text, the text is owned, the value was set
    /// since, or reading percent-decoded the name or the value.
    pub fn value_raw(&self) -> Option<&'c str>
        ensures { option_copied result ≡ self.now.raw.value }
    {
        self.value.raw()
    }

    /// The path as it stands in the borrowed text that was read.
    ///
    /// `None` where there is no path, the text is owned, or the path was set since.
    pub fn path_raw(&self) -> Option<&'c str>
        ensures { option_copied result ≡ self.now.raw.path }
    {
        match &self.path {
            Some(path) => path.raw(),
            None => None,
        }
    }

    /// The domain as it stands in the borrowed text that was read, without one leading dot.
    ///
    /// `None` where there is no domain, the text is owned, or the domain was set since.
    pub fn domain_raw(&self) -> Option<&'c str>
        ensures { option_copied result ≡ self.now.raw.domain }
    {
        match &self.domain {
            Some(domain) => raw_without_dot(domain),
            None => None,
        }
    }

    /// Whether scripts are to be kept from the cookie, where that is said.
    pub fn http_only(&self) -> Option<bool>
        ensures { result ≡ self.now.cookie.http_only }
    {
        self.http_only
    }

    /// Whether the cookie is for secure requests alone, where that is said.
    pub fn secure(&self) -> Option<bool>
        ensures { result ≡ self.now.cookie.secure }
    {
        self.secure
    }

    /// Which requests from other sites carry the cookie, where that is said.
    pub fn same_site(&self) -> Option<SameSite>
        ensures { result ≡ self.now.cookie.same_site }
    {
        self.same_site
    }

    /// Whether the cookie is kept apart for each top-level site, where that is said.
    pub fn partitioned(&self) -> Option<bool>
        ensures { result ≡ self.now.cookie.partitioned }
    {
        self.partitioned
    }

    /// How long the cookie lives from its receipt on.
    pub fn max_age(&self) -> Option<SignedDuration>
        ensures { option_map signed_nanos result ≡ self.now.cookie.max_age }
    {
        self.max_age
    }

    /// The path of the requests that carry the cookie.
    pub fn path(&self) -> Option<&str>
        ensures { option_copied result ≡ self.now.cookie.path }
    {
        match &self.path {
            Some(path) => Some(path.as_str()),
            None => None,
        }
    }

    /// The domain of the requests that carry the cookie, without one leading dot.
    pub fn domain(&self) -> Option<&str>
        ensures { option_copied result ≡ domain_of self.now.cookie }
    {
        match &self.domain {
            Some(domain) => Some(without_leading_dot(domain.as_str())),
            None => None,
        }
    }

    /// When the cookie ends.
    pub fn expires(&self) -> Option<Expiration>
        ensures { result ≡ self.now.cookie.expires }
    {
        self.expires
    }

    /// The moment at which the cookie ends, in UTC.
    pub fn expires_datetime(&self) -> Option<DateTime>
        ensures { result ≡ moment_of self.now.cookie.expires }
    {
        match self.expires {
            Some(Expiration::DateTime(moment)) => Some(moment),
            _ => None,
        }
    }
}

// The slice of the source without one leading dot.
fn raw_without_dot<'c>(domain: &Part<'c>) -> Option<&'c str>
    ensures { option_copied result ≡ option_map without_dot (raw_text domain.now) }
{
    match domain.raw() {
        Some(domain) => Some(without_leading_dot(domain)),
        None => None,
    }
}

// The text without one leading dot.
fn without_leading_dot(text: &str) -> &str
    ensures { result.now ≡ without_dot text.now }
{
    match text.strip_prefix('.') {
        Some(rest) => rest,
        None => text,
    }
}

// The text without one pair of double quotes round it.
fn without_quotes(text: &str) -> &str
    ensures { IsUnquoted text.now result.now }
{
    let Some(rest) = text.strip_prefix('"') else {
        return text;
    };
    match rest.strip_suffix('"') {
        Some(inner) => inner,
        None => text,
    }
}
