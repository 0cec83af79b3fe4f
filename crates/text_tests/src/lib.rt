//! Tests of the texts of terms, of lines and of whole graphs.
#![tactic(auto)]

#[cfg(test)]
mod faults;
#[cfg(test)]
mod graphs;
#[cfg(test)]
mod large_terms;
#[cfg(test)]
mod limits;
#[cfg(test)]
mod lines;
#[cfg(test)]
mod numbers;
#[cfg(test)]
mod refusal;
#[cfg(test)]
mod terms;
#[cfg(test)]
mod written;
