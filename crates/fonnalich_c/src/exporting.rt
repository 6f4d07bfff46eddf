//! The cookies of a client as a `cookies.txt`.
ghost use Rattle.std.specs.Prelude.{◌≡◌, IfErr, IfOk};
ghost use Rattle.jiff.specs.Words.{civil_nanos};
ghost use Rattle.cookies_txt.specs.Writing.{rows_in};
ghost use Rattle.fonnalich_c.specs.Exporting as spec;
ghost use Rattle.fonnalich_c.specs.Given.{nanos_of};
ghost use Rattle.fonnalich_c.specs.Listing.{IsNoListing};

use crate::given::moment;
use crate::refusal::Refusal;
use cookie_client::Client;
use cookie_store::{Cookie, CookieStore};
use cookies_txt::{Reader, write_for};
use jiff::civil::DateTime;
use std::alloc::{AllocError, Global};

/// The text for this reader of the cookies that aren't expired at the second, with those that end with the session or
/// without. One that no line can hold is passed over.
pub(crate) fn export(
    alloc: Global,
    client: &Client,
    reader: Reader,
    sessions: bool,
    second: i64,
) -> Result<Vec<u8>, Refusal>
    ensures ok { IfOk result (λ answer.
        spec.Exports reader sessions (nanos_of second) client.now.rows answer.items) }
    ensures err { IfErr result (IsNoListing second) }
{
    let now = moment(second)?;
    Ok(export_at(alloc, client, reader, sessions, now)?)
}

fn export_at(
    alloc: Global,
    client: &Client,
    reader: Reader,
    sessions: bool,
    now: DateTime,
) -> Result<Vec<u8>, AllocError>
    ensures { IfOk result (λ answer.
        spec.Exports reader sessions (civil_nanos now) client.now.rows answer.items) }
{
    let rows = exported(alloc, client.store(), sessions, now)?;
    match write_for(alloc, reader, rows, true) {
        Ok(written) => Ok(written.text.into_bytes()),
        // What no line can hold is passed over, so only memory was refused.
        Err(_) => Err(AllocError),
    }
}

fn exported(
    alloc: Global,
    store: &CookieStore,
    sessions: bool,
    now: DateTime,
) -> Result<Vec<&Cookie<'static>>, AllocError>
    ensures { IfOk result (λ rows.
        rows_in rows.items ≡ spec.exported sessions (civil_nanos now) store.now.rows) }
{
    let mut rows = Vec::new(alloc);
    for cookie in store.iter_unexpired(now) {
        if sessions || cookie.is_persistent() {
            rows.push(cookie)?;
        }
    }
    Ok(rows)
}
