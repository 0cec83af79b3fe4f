//! Tests of the public calls of `sym_terms`, as tables worked by hand from the documents. It gives nothing.
#![tactic(auto)]

#[cfg(test)]
mod made;
#[cfg(test)]
mod order;
#[cfg(test)]
mod results;
