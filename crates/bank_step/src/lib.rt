//! The step of the lifter over predicates whose terms are numbers of a bank: where an instruction leads and what is known
//! there, by the rules of `step_rules`. It runs nothing and reads no memory but the executable's fixed bytes.
#![tactic(auto)]

mod numbered;

pub use bank_values::{BankNode, BankPred, from_bank, to_bank};
pub use numbered::{cases, site_facts};
pub use pred_step::Facts;
pub use sym_terms::NoMemory;
