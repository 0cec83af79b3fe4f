//! Tests of the public calls of jump_tables. Expected values are worked by hand from the files' bytes. It gives nothing.
#![tactic(auto)]

#[cfg(test)]
mod tables;
