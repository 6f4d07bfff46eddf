//! Which domains cover the host of a request's URL.

ghost use Rattle.std.specs.Prelude.{◌↔◌, IsTrue, IfOk, IsSomeAnd};
ghost use Rattle.store_parts.specs.DomainMatch.{CoversAt};
ghost use Rattle.store_parts.specs.DomainText.{read_domain};
ghost use Rattle.cookie_store.specs.Steps.{IsJudged};

use std::alloc::{AllocError, Global};
use store_parts::cookie_domain;
use url::Url;

/// Whether the domain that a text gives covers the host of a URL.
#[derive(Clone, Copy)]
pub(crate) struct Judged<'c> {
    pub(crate) domain: &'c str,
    pub(crate) covers: bool,
}

/// Whether the domain that the text gives covers the URL's host. That is known where the text is the one that was
/// judged last, as in rows of one domain, which stand together: else the text is read, and kept as the last.
pub(crate) fn covers<'c>(
    alloc: Global,
    domain: &'c str,
    request_url: &Url,
    last: &mut Option<Judged<'c>>,
) -> Result<bool, AllocError>
    requires { IsJudged last.old request_url.now }
    ensures covers { IfOk result (λ covers. IsTrue covers
        ↔ IsSomeAnd (read_domain domain.now) (λ d. CoversAt d request_url.now)) }
    ensures judged { IsJudged last.new request_url.now }
{
    if let Some(judged) = *last {
        if judged.domain == domain {
            return Ok(judged.covers);
        }
    }
    let covers = cookie_domain::is_match(alloc, domain, request_url)?;
    *last = Some(Judged { domain, covers });
    Ok(covers)
}
