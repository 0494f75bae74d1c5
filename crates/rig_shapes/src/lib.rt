// A line of a rig file taken apart; and why a line has the wrong shape.
#![tactic(auto)]

mod fields;
mod reasons;

pub use fields::{has_kind, number};
pub use reasons::{Reason, why};
