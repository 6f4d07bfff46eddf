//! Plain rows.

use jiff::civil::DateTime;

/// The domain of a row. Its text is any text.
#[derive(Debug, Drop)]
pub enum SavedDomain {
    /// The host alone.
    HostOnly(String),
    /// The domain and what is below it.
    Suffix(String),
    /// No domain was there.
    NotPresent,
    /// The domain was empty.
    Empty,
}

/// When a row dies.
#[derive(Clone, Copy, Debug)]
pub enum SavedExpiration {
    /// At a moment in UTC.
    AtUtc(DateTime),
    /// With the session.
    SessionEnd,
}

/// A row of a saved text.
#[derive(Debug, Drop)]
pub struct SavedRow {
    /// The cookie's text (RFC 6265, section 5.2).
    pub raw_cookie: String,
    /// The path, any text.
    pub path: String,
    /// Whether an attribute gave the path.
    pub is_from_path_attr: bool,
    /// The domain.
    pub domain: SavedDomain,
    /// The death.
    pub expires: SavedExpiration,
}
