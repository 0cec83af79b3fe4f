//! Tests of the crates image_maker, root_scan and report.
#![tactic(auto)]

#[cfg(test)]
mod images;
#[cfg(test)]
mod reports;
#[cfg(test)]
mod words;
