//! What a site tells its session, and what is read then.

use crate::outcome::SessionError;
use crate::text::Text;
use crate::way::Way;
use cookie::Cookie;

/// What a site tells its session.
#[derive(Drop, Debug)]
pub enum Command {
    /// Sets a cookie in a way.
    Set(Way, Cookie<'static>),
    /// Removes the cookie of a name, as set in a way.
    Remove(Way, Text),
    /// Reads the value of a name, as set in a way.
    Get(Way, Text),
}

/// What is read by a site's commands, and at a look at a header.
#[derive(Drop, Debug, PartialEq, Eq)]
pub enum Reading {
    /// The value of a name, where the site has one.
    Value(Way, Text, Option<Text>),
    /// A command was refused.
    Refused(SessionError),
    /// The header of a request.
    Header(Text),
}
