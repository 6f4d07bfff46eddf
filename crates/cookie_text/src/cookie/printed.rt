//! Which attributes of a cookie are printed.
ghost use Rattle.std.specs.Prelude.{◌≡◌, [], option_map, IsTrue};
ghost use Rattle.cookie_text.specs.Record.{domain_of};
ghost use Rattle.cookie_text.specs.AttributeView.{attribute_view};
ghost use Rattle.cookie_text.specs.Attribute.{HttpOnly, Partitioned, Secure, OfSite, MaxAge, Path as PathIs};
ghost use Rattle.cookie_text.specs.Attribute.{Domain as DomainIs};
ghost use Rattle.cookie_text.specs.Printing.{prints_secure, printed_attributes, whole_seconds, end_of, flag, is_set};

use crate::attribute::Attribute;
use crate::cookie::Cookie;
use crate::draft::SameSite;

impl<'c> Cookie<'c> {
    // Whether no attribute is there, so that none is printed. Most cookies that a site sets are so.
    pub(crate) fn is_bare(&self) -> bool
        ensures { IsTrue result → printed_attributes self.now.cookie ≡ [] }
    {
        self.http_only.is_none()
            && self.secure.is_none()
            && self.partitioned.is_none()
            && self.same_site.is_none()
            && self.max_age.is_none()
            && self.path.is_none()
            && self.domain.is_none()
            && self.expires.is_none()
    }

    // Whether `Secure` is printed.
    pub(crate) fn prints_secure(&self) -> bool
        ensures { result ≡ prints_secure self.now.cookie }
    {
        self.secure == Some(true)
            || self.partitioned == Some(true)
            || (self.same_site == Some(SameSite::None) && self.secure.is_none())
    }

    // `HttpOnly`, where it is printed.
    pub(crate) fn http_only_printed(&self) -> Option<Attribute<'_>>
        ensures { option_map attribute_view result ≡ flag (is_set self.now.cookie.http_only) HttpOnly }
    {
        if self.http_only == Some(true) {
            Some(Attribute::HttpOnly)
        } else {
            None
        }
    }

    // `Partitioned`, where it is printed.
    pub(crate) fn partitioned_printed(&self) -> Option<Attribute<'_>>
        ensures { option_map attribute_view result ≡ flag (is_set self.now.cookie.partitioned) Partitioned }
    {
        if self.partitioned == Some(true) {
            Some(Attribute::Partitioned)
        } else {
            None
        }
    }

    // `Secure`, where it is printed.
    pub(crate) fn secure_printed(&self) -> Option<Attribute<'_>>
        ensures { option_map attribute_view result ≡ flag (prints_secure self.now.cookie) Secure }
    {
        if self.prints_secure() {
            Some(Attribute::Secure)
        } else {
            None
        }
    }

    // `SameSite`, where it is printed.
    pub(crate) fn same_site_printed(&self) -> Option<Attribute<'_>>
        ensures { option_map attribute_view result ≡ option_map OfSite self.now.cookie.same_site }
    {
        match self.same_site {
            Some(same_site) => Some(Attribute::SameSite(same_site)),
            None => None,
        }
    }

    // `Path`, where it is printed.
    pub(crate) fn path_printed(&self) -> Option<Attribute<'_>>
        ensures { option_map attribute_view result ≡ option_map PathIs self.now.cookie.path }
    {
        match self.path() {
            Some(path) => Some(Attribute::Path(path)),
            None => None,
        }
    }

    // `Domain`, where it is printed.
    pub(crate) fn domain_printed(&self) -> Option<Attribute<'_>>
        ensures { option_map attribute_view result ≡ option_map DomainIs (domain_of self.now.cookie) }
    {
        match self.domain() {
            Some(domain) => Some(Attribute::Domain(domain)),
            None => None,
        }
    }

    // `Max-Age`, where it is printed.
    pub(crate) fn max_age_printed(&self) -> Option<Attribute<'_>>
        ensures { option_map attribute_view result
            ≡ option_map (λ nanos. MaxAge (whole_seconds nanos)) self.now.cookie.max_age }
    {
        match self.max_age_secs() {
            Some(seconds) => Some(Attribute::MaxAge(seconds)),
            None => None,
        }
    }

    // `Expires`, where it is printed.
    pub(crate) fn expires_printed(&self) -> Option<Attribute<'_>>
        ensures { option_map attribute_view result ≡ end_of self.now.cookie.expires }
    {
        match self.expires_datetime() {
            Some(moment) => Some(Attribute::Expires(moment)),
            None => None,
        }
    }

    // The whole seconds of the max-age.
    pub(crate) fn max_age_secs(&self) -> Option<i64>
        ensures { result ≡ option_map whole_seconds self.now.cookie.max_age }
    {
        match self.max_age {
            Some(max_age) => Some(max_age.as_secs()),
            None => None,
        }
    }
}
