//! A client and a session: what they read of each other's lines and headers (RFC 6265).
//!
//! A [`session::Session`] reads the cookies of a request's header and closes with the lines of those that were set; a
//! [`ring_session::RingSession`] does so on a ring of keys. A [`client::Client`] holds a store of the cookies that it
//! receives and gives each request its header. `cookie_run` plays both, and has the proof that a site reads what it
//! set.
#![tactic(auto)]

pub mod client;
mod command;
pub mod ending;
pub mod laws;
pub mod moment;
mod outcome;
pub mod pair;
pub mod reading;
mod release;
pub mod ring_session;
pub mod session;
pub mod shard;
pub mod text;
mod way;

pub use client::Client;
pub use command::{Command, Reading};
pub use cookie_store::{Counting, Failing, Sink, Source};
pub use ending::EndingWay;
pub use outcome::{LineEnd, SessionError, Stopped};
pub use release::{version, version_line};
pub use ring_session::RingSession;
pub use session::Session;
pub use shard::{shard_of, shard_of_url};
pub use text::Text;
pub use way::Way;
