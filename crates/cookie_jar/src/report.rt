//! What a `Set-Cookie` line says: its pair of name and value, and each of its pieces (RFC 6265, section 5.2).

mod judging;
mod name;
mod pairing;

pub(crate) use judging::push_pieces;
pub(crate) use pairing::push_pair;
