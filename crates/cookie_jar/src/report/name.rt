//! The names of attributes.
ghost use Rattle.cookie_jar.specs.Terminal.{ArePlain};

/// The name of an attribute that a store reads.
#[derive(Clone, Copy, Debug)]
pub(crate) enum AttributeName {
    /// RFC 6265, section 5.2.1.
    Expires,
    /// RFC 6265, section 5.2.2.
    MaxAge,
    /// RFC 6265, section 5.2.3.
    Domain,
    /// RFC 6265, section 5.2.4.
    Path,
    /// RFC 6265, section 5.2.5.
    Secure,
    /// RFC 6265, section 5.2.6.
    HttpOnly,
    /// Of the drafts that follow RFC 6265.
    SameSite,
    /// Of the drafts that follow RFC 6265.
    Partitioned,
}

impl AttributeName {
    // Whether it is the other one.
    pub(crate) fn is(self, other: AttributeName) -> bool {
        self as u8 == other as u8
    }

    // Where RFC 6265 has it, as a report says it.
    pub(crate) fn place(self) -> &'static str
        ensures { ArePlain result.now }
    {
        match self {
            AttributeName::Expires => " (RFC 6265, section 5.2.1)",
            AttributeName::MaxAge => " (RFC 6265, section 5.2.2)",
            AttributeName::Domain => " (RFC 6265, section 5.2.3)",
            AttributeName::Path => " (RFC 6265, section 5.2.4)",
            AttributeName::Secure => " (RFC 6265, section 5.2.5)",
            AttributeName::HttpOnly => " (RFC 6265, section 5.2.6)",
            AttributeName::SameSite | AttributeName::Partitioned => "",
        }
    }
}

/// The attribute that the piece is called, in letters of any case.
pub(crate) fn name_of(piece: &str) -> Option<AttributeName> {
    named(written_name(piece))
}

// What stands before the first `=`, or all of it, without the white space round it.
fn written_name(piece: &str) -> &str {
    match piece.split_once('=') {
        Some((name, _)) => name.trim(),
        None => piece.trim(),
    }
}

// The attribute of this name, in letters of any case.
fn named(name: &str) -> Option<AttributeName> {
    if name.eq_ignore_ascii_case("expires") {
        Some(AttributeName::Expires)
    } else if name.eq_ignore_ascii_case("max-age") {
        Some(AttributeName::MaxAge)
    } else if name.eq_ignore_ascii_case("domain") {
        Some(AttributeName::Domain)
    } else if name.eq_ignore_ascii_case("path") {
        Some(AttributeName::Path)
    } else if name.eq_ignore_ascii_case("secure") {
        Some(AttributeName::Secure)
    } else if name.eq_ignore_ascii_case("httponly") {
        Some(AttributeName::HttpOnly)
    } else if name.eq_ignore_ascii_case("samesite") {
        Some(AttributeName::SameSite)
    } else if name.eq_ignore_ascii_case("partitioned") {
        Some(AttributeName::Partitioned)
    } else {
        None
    }
}
