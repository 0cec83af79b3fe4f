//! Large executables out of a number: chains of small functions, of which each calls the next one. They
//! are examples for the tool to work on. Nothing is read or run.
#![tactic(auto)]

mod functions;
mod headers;
mod image;
mod refusal;

pub use image::make_image;
pub use refusal::MakeRefusal;
