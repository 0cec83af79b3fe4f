//! The step of an executable as rounds have it: over predicates whose terms are numbers of any bank, with the lines of a site made
//! of what is known at its vertices, and with indirect jumps that are opened.
#![tactic(auto)]

mod reading;
mod walk;

pub use bank_step::{BankPred, from_bank, to_bank};
pub use lift_openings::{Jumps, NoMemory, Steps};
pub use reading::{pred_at, preds_at};
pub use walk::Walk;
