//! What each command of the program `cookie-jar` does.
//!
//! ```text
//! let words = words::read(alloc, &given)?;
//! let plan = plan_of(alloc, &words, clock)?;
//! let outcome = answer(alloc, &plan, suffixes, stored, brought)?;
//! // outcome.printed, outcome.status, and the texts that the jar and the other file are to hold
//! ```
#![tactic(auto)]

mod about;
mod answering;
mod ended;
mod failure;
mod help;
mod importing;
mod jar_text;
mod keeping;
mod moving;
mod names;
mod outcome;
mod passed_over;
mod plan;
mod printing;
pub mod program;
mod receiving;
mod refusal;
mod removing;
mod rule_names;
mod same_file;
mod setting;
mod showing;
mod url_cause;
pub mod words;

pub use about::Stopped;
pub use answering::answer;
pub use failure::{Failure, Spot};
pub use help::HELP;
pub use outcome::{Outcome, Printed};
pub use plan::{Command, Plan, Start, plan_of};
