//! Which trucks may be reassigned, by the permission and revocation masks of the dispatch software.
#![tactic(auto)]

pub mod offer;
pub mod reassign;
