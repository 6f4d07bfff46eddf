//! The attribute `SameSite` of the draft that follows RFC 6265.
ghost use Rattle.std.specs.Prelude.{◌≡◌, ◌↔◌, IsTrue};

/// Which requests from other sites carry a cookie. It prints the variant's name.
#[derive(Clone, Copy, Debug, PartialEq, Eq, Hash)]
pub enum SameSite {
    /// No request from another site.
    Strict,
    /// Only those that open a page.
    Lax,
    /// All requests.
    None,
}

impl SameSite {
    ghost use Rattle.cookie_text.specs.declared.draft.SameSite.TheVariants as site;

    /// Whether this is `Strict`.
    pub fn is_strict(&self) -> bool
        ensures { IsTrue result ↔ (self.now ≡ site.Strict) }
    {
        matches!(self, SameSite::Strict)
    }

    /// Whether this is `Lax`.
    pub fn is_lax(&self) -> bool
        ensures { IsTrue result ↔ (self.now ≡ site.Lax) }
    {
        matches!(self, SameSite::Lax)
    }

    /// Whether this is `None`.
    pub fn is_none(&self) -> bool
        ensures { IsTrue result ↔ (self.now ≡ site.None) }
    {
        matches!(self, SameSite::None)
    }
}
