//! Tests of the public calls on integers, instructions, the decoder, the machine and the text, as tables. It gives nothing.
#![tactic(auto)]

#[cfg(test)]
mod decoder;
#[cfg(test)]
mod integers;
#[cfg(test)]
mod machine;
#[cfg(test)]
mod recorded;
#[cfg(test)]
mod text;
