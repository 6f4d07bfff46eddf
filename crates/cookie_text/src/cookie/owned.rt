//! Copies of a cookie, and a cookie that owns its texts.
ghost use Rattle.std.specs.Prelude.{◌≡◌, IfOk};
ghost use Rattle.cookie_text.specs.Record.{unsliced};

use crate::cookie::Cookie;
use crate::part::{cloned, owned};
use std::alloc::{AllocError, Global};

impl<'c> Cookie<'c> {
    /// The same cookie, owning its texts: no raw form is left.
    ///
    /// # Errors
    ///
    /// Want of memory.
    #[inline(always)]
    pub fn into_owned(self, alloc: Global) -> Result<Cookie<'static>, AllocError>
        ensures { IfOk result (λ cookie. cookie ≡ unsliced self.entry.cookie) }
    {
        let Cookie {
            name,
            value,
            http_only,
            secure,
            partitioned,
            same_site,
            max_age,
            path,
            domain,
            expires,
        } = self;
        let name = name.into_owned(alloc)?;
        let value = value.into_owned(alloc)?;
        let path = owned(alloc, path)?;
        let domain = owned(alloc, domain)?;
        Ok(Cookie {
            name,
            value,
            http_only,
            secure,
            partitioned,
            same_site,
            max_age,
            path,
            domain,
            expires,
        })
    }

    /// A copy, whose raw forms are those of this cookie: borrowed texts are borrowed again, owned ones
    /// are copied.
    ///
    /// # Errors
    ///
    /// Want of memory.
    #[inline(always)]
    pub fn clone(&self, alloc: Global) -> Result<Cookie<'c>, AllocError>
        ensures { IfOk result (λ cookie. cookie ≡ self.now) }
    {
        let name = self.name.clone(alloc)?;
        let value = self.value.clone(alloc)?;
        let path = cloned(alloc, &self.path)?;
        let domain = cloned(alloc, &self.domain)?;
        Ok(Cookie {
            name,
            value,
            http_only: self.http_only,
            secure: self.secure,
            partitioned: self.partitioned,
            same_site: self.same_site,
            max_age: self.max_age,
            path,
            domain,
            expires: self.expires,
        })
    }
}
