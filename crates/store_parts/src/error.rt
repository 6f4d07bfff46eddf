//! Why a call of a cookie store is refused.
ghost use Rattle.std.specs.Prelude.{◌≡◌};
ghost use Rattle.store_parts.specs.declared.error.CookieError.TheVariants as cookie_error;
ghost use Rattle.store_parts.specs.declared.error.Error.TheVariants as error;
ghost use Rattle.store_parts.specs.Refusals as refusals;

use cookie::ParseError;
use std::alloc::{AllocError, AllocFailed};

/// Why a cookie is refused.
#[derive(Clone, Copy, Debug, PartialEq, Eq, thiserror::Error)]
pub enum CookieError {
    /// The cookie is HttpOnly, and the URL's scheme does not begin with `http`.
    #[error("request-uri is not an http scheme but HttpOnly attribute set")]
    NonHttpScheme,
    /// The cookie has no domain, and the URL has no host.
    #[error("request-uri is not a relative scheme; cannot determine host")]
    NonRelativeScheme,
    /// The URL's host does not domain-match the cookie's domain.
    #[error("request-uri does not domain-match the cookie")]
    DomainMismatch,
    /// The cookie is expired.
    #[error("attempted to utilize an Expired Cookie")]
    Expired,
    /// The text is no cookie, or its domain has no IDNA form.
    #[error("unable to parse string as cookie::Cookie")]
    Parse,
    /// The cookie's domain is a public suffix that is not the URL's host.
    #[error("domain-attribute value is a public suffix")]
    PublicSuffix,
    /// A domain that has no text, where one is asked for. No call answers this.
    #[error("domain-attribute is not specified")]
    UnspecifiedDomain,
    /// Want of memory.
    #[error("OutOfMemory")]
    OutOfMemory,
}

impl From<AllocError> for CookieError {
    ghost from_gives = { λ _ e. e ≡ cookie_error.OutOfMemory };

    fn from(_: AllocError) -> CookieError {
        CookieError::OutOfMemory
    }
}

/// A text that is no cookie as `Parse`, and want of memory by its own name.
impl From<ParseError> for CookieError {
    ghost from_gives = { λ cause e. e ≡ refusals.of_parse cause };

    fn from(cause: ParseError) -> CookieError {
        match cause {
            ParseError::OutOfMemory => CookieError::OutOfMemory,
            _ => CookieError::Parse,
        }
    }
}

/// Why `idna` gave no IDNA form.
#[derive(Debug, Drop)]
pub struct IdnaErrors(idna::Errors);

impl From<idna::Errors> for IdnaErrors {
    ghost from_gives = { λ refusal e. e ≡ refusals.handed_on refusal };

    fn from(refusal: idna::Errors) -> IdnaErrors {
        IdnaErrors(refusal)
    }
}

/// Why a text, a saved store or a device is refused.
#[derive(Debug, Drop, thiserror::Error)]
pub enum Error {
    /// A reader or a writer failed.
    #[error("Io")]
    Io,
    /// The bytes are not UTF-8.
    #[error("NotText")]
    NotText,
    /// A domain has no IDNA form.
    #[error("Idna")]
    Idna(IdnaErrors),
    /// A cookie is refused.
    #[error("{0}")]
    Cookie(CookieError),
    /// The text is no JSON value.
    #[error("Json")]
    Json,
    /// The RON text is refused at this byte.
    #[error("Ron({0})")]
    Ron(usize),
    /// The JSON value is no list of rows.
    #[error("Shape")]
    Shape,
    /// An expiry of a year below 0 cannot be saved.
    #[error("Year")]
    Year,
    /// A closure of the caller refused a text.
    #[error("Text")]
    Text,
    /// Want of memory.
    #[error("OutOfMemory")]
    OutOfMemory,
}

/// The answer of a call that may be refused by an [`Error`].
pub type Result<T> = std::result::Result<T, Error>;

impl From<AllocError> for Error {
    ghost from_gives = { λ _ e. e ≡ error.OutOfMemory };

    fn from(_: AllocError) -> Error {
        Error::OutOfMemory
    }
}

impl<T: Drop> From<AllocFailed<T>> for Error {
    ghost from_gives = { λ _ e. e ≡ error.OutOfMemory };

    fn from(_: AllocFailed<T>) -> Error {
        Error::OutOfMemory
    }
}

/// A refused cookie as `Cookie`, and want of memory by its own name.
impl From<CookieError> for Error {
    ghost from_gives = { λ cause e. e ≡ refusals.of_cookie cause };

    fn from(cause: CookieError) -> Error {
        match cause {
            CookieError::OutOfMemory => Error::OutOfMemory,
            cause => Error::Cookie(cause),
        }
    }
}

/// A domain without IDNA form as `Idna`, and want of memory by its own name.
impl From<IdnaErrors> for Error {
    ghost from_gives = { λ cause e. e ≡ refusals.of_idna cause };

    fn from(cause: IdnaErrors) -> Error {
        match cause.0 {
            idna::Errors::Invalid => Error::Idna(cause),
            idna::Errors::OutOfMemory => Error::OutOfMemory,
        }
    }
}
