//! Cookies in the fields of HTTP messages (RFC 6265, sections 4.1 and 4.2; RFC 9113, section 8.2.3).
//!
//! A server reads the `cookie` fields of a request by [`session_of`] or [`jar_of`], and puts the
//! `set-cookie` fields of its answer by [`put_lines`] or [`put_delta`]. A client puts the `cookie` field
//! of a request by [`put_header`], and takes the `set-cookie` fields of an answer by [`receive`]. Nothing is sent.
#![tactic(auto)]

mod client;
mod error;
mod fields;
pub mod laws;
mod server;

pub use client::{put_header, receive};
pub use error::PutError;
pub use server::{jar_of, put_delta, put_lines, session_of};
