//! Access rules as the judge of the events of worlds of YANG data: what operators ask for is judged before it reaches a device.
//!
//! Stands on `nm_access` for what rules decide, on `nm_touched` for the rows that an edit touches, and on `nm_permitted`, whose runs ask
//! a judge. The layers above rely on the judgement being that of the operator's user, of the operation first and then of the rows that
//! an edit would change in candidate, and on nobody but an operator with a session being judged.
#![tactic(auto)]

pub mod judge;
pub mod operation;

pub use judge::AccessJudge;
