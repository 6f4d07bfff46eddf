//! Cookies from a site's session to a client and back (RFC 6265), with the proof that a site reads
//! what it set.
//!
//! A [`session::Session`] and a [`client::Client`] are those of `cookie_client`. [`play::play`] runs steps of sites
//! against one client; its contract is that each site reads what its own delivered commands leave.
#![tactic(auto)]

pub mod laws;
mod moment;
pub mod play;
pub mod program;
pub mod script;
pub mod shards;
pub mod step;
pub mod text;

pub use cookie_client::{
    Client, EndingWay, RingSession, Session, client, ending, pair, reading, ring_session, session,
    version, version_line,
};
pub use cookie_store::{Counting, Failing, Sink, Source};
pub use script::ended::{Ended, RunError};
pub use script::run::run;
pub use step::{
    Command, Delivery, Fault, FaultKind, LineEnd, Reading, SessionError, Step, Stopped, Way,
};
pub use text::Text;
