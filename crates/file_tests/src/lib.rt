//! Tests of the public calls over files: executables as they are read, and files and streams in memory. Expected values
//! are worked by hand from the standards. It gives nothing.
#![tactic(auto)]

#[cfg(test)]
mod executables;
#[cfg(test)]
mod outside;
