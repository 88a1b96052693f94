//! What access rules keep in a world of YANG data, whatever operators ask and in whatever order: nobody gets in where he doesn't
//! belong. Laws alone.
//!
//! Stands on `nm_access_judge` for what is judged, on `nm_permitted` for runs of permitted events, and on `nm_safety` for what every run
//! keeps.
#![tactic(auto)]

pub mod laws;
