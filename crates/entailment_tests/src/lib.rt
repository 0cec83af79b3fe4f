//! Tests of the public calls of `predicates`, as tables worked by hand from the documents. It gives nothing.
#![tactic(auto)]

#[cfg(test)]
mod conjuncts;
#[cfg(test)]
mod entry;
#[cfg(test)]
mod facts;
#[cfg(test)]
mod form;
#[cfg(test)]
mod nodes;
#[cfg(test)]
mod weaken;
