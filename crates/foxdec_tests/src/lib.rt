//! Tests of the top call over files and streams in memory.
#![tactic(auto)]

#[cfg(test)]
mod report_call;
#[cfg(test)]
mod top_call;
