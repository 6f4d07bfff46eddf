//! The ways in which a site keeps a cookie.

/// How a site keeps a cookie.
#[derive(Clone, Copy, Debug, PartialEq, Eq)]
pub enum Way {
    /// As it is.
    Plain,
    /// As it is, under the prefix `__Host-`.
    Host,
    /// As it is, under the prefix `__Secure-`.
    Secure,
    /// With its code before it.
    Signed,
    /// Encrypted.
    Sealed,
}
