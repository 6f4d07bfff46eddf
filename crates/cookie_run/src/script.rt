//! Scripts of exchanges: what their lines ask for, their run, and what it prints.

mod cause;
pub mod ended;
mod field;
mod line;
mod print;
pub mod run;
pub(crate) mod seed;
mod visit;

pub use cookie_client::moment;
