//! Tests of `term_bank`, `bank_values` and `bank_step`: numbers of terms; by the rows of `step_rows`, that the steps of the
//! checker and of the lifter agree; and which terms a step puts into its bank.

#![tactic(auto)]

#[cfg(test)]
mod counts;
#[cfg(test)]
mod facts;
#[cfg(test)]
mod numbers;
#[cfg(test)]
mod steps;
