//! The URL that was asked for last, which isn't parsed again.
ghost use Rattle.std.specs.Prelude.{◌≡◌, ◌↔◌, ◌⊎◌, IfOk, IfErr, OnOk, IsSomeAnd, IsTrue};
ghost use Rattle.fonnalich_c.specs.Given as spec;

use crate::given::url;
use crate::refusal::Refusal;
use std::alloc::Global;
use std::marker::Model;
use url::Url;

/// A URL beside the text that it was parsed from.
#[derive(Drop)]
pub struct Page {
    text: Vec<u8>,
    url: Url,
}

impl Model for Page {
    ghost use Rattle.fonnalich_c.specs.Given.{Page, IsUrl};

    ghost Value = { Page };

    ghost view = { λ p. record { text = p.text.items; url = p.url } };

    ghost invariant = { λ p. IsUrl p.text.items p.url };
}

impl Page {
    /// The URL of a text.
    pub fn of(alloc: Global, text: &[u8]) -> Result<Page, Refusal>
        ensures ok { IfOk result (λ page. page.text ≡ text.now) }
        ensures err { IfErr result (λ refused.
            (refused ≡ Refusal.Memory) ⊎ ((refused ≡ Refusal.Url) × spec.IsNoUrl text.now)) }
    {
        let url = url(alloc, text)?;
        let mut copy = Vec::with_capacity(alloc, text.len())?;
        copy.extend_from_slice(text)?;
        Ok(Page { text: copy, url })
    }

    /// Whether it is of this text.
    pub fn is_of(&self, text: &[u8]) -> bool
        ensures { IsTrue result ↔ (self.now.text ≡ text.now) }
    {
        *self.text == *text
    }

    /// Its URL.
    pub fn url(&self) -> &Url
        ensures value { result.now ≡ self.now.url }
        ensures of { spec.IsUrl self.now.text result.now }
    {
        &self.url
    }
}

/// The URL of a text: the kept one where it is of that text, and else the text's, which is kept in its place. A refusal
/// leaves it.
pub(crate) fn url_at<'p>(
    alloc: Global,
    page: &'p mut Option<Page>,
    text: &[u8],
) -> Result<&'p Url, Refusal>
    ensures ok { IfOk result (λ url. spec.IsUrl text.now url.now) }
    ensures err { IfErr result (λ refused.
        (refused ≡ Refusal.Memory) ⊎ ((refused ≡ Refusal.Url) × spec.IsNoUrl text.now)) }
{
    turn_to(alloc, page, text)?;
    Ok(page.as_ref().unwrap().url())
}

// Has the page be that of a text.
fn turn_to(alloc: Global, page: &mut Option<Page>, text: &[u8]) -> Result<(), Refusal>
    ensures ok { OnOk result (IsSomeAnd page.new (λ p. p.text ≡ text.now)) }
    ensures err { IfErr result (λ refused.
        (refused ≡ Refusal.Memory) ⊎ ((refused ≡ Refusal.Url) × spec.IsNoUrl text.now)) }
{
    if let Some(last) = page {
        if last.is_of(text) {
            return Ok(());
        }
    }
    *page = Some(Page::of(alloc, text)?);
    Ok(())
}
