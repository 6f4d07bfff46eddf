//! Where the rows of a vector stand, by the domain, the path and the name of each.
#![tactic(auto)]

mod find;
mod index;
pub mod laws;
mod looks;
mod moving;
mod names;
mod order;
mod part;
mod putting;
mod room;
mod starts;
mod taking;
mod text_list;
mod text_map;

pub use index::Index;
pub use looks::Looks;
