//! What user agents do beyond a store: dates as servers send them (RFC 6265, section 5.1.1).
//!
//! ```text
//! dates::read("Thu, 1-Jan-70 0:00:00 UTC"); // the first moment of 1970
//! ```
#![tactic(auto)]

pub mod agent;
pub mod changes;
pub mod cross_answer;
pub mod cross_site;
pub mod cut_life;
pub mod dates;
mod headers;
pub mod integrity;
mod judging;
pub mod known_date;
pub mod laws;
mod left_alone;
pub mod long_attributes;
mod plain;
pub mod rules;
mod secure_places;
mod secure_wins;
pub mod sites;
pub mod taking;
mod token;

pub use agent::UserAgent;
pub use changes::Changes;
pub use cross_answer::{OutcomeFor, SiteRefusal};
pub use cut_life::with_cut_life;
pub use known_date::with_known_date;
pub use long_attributes::without_long_attributes;
pub use plain::is_plain_url;
pub use rules::{Outcome, Refusal, Rules};
pub use secure_places::SecurePlaces;
pub use sites::Initiator;
pub use taking::take;
