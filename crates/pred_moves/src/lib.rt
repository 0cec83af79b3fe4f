//! What is known of operands, and after each part of a step, by the rules of `step_rules`, on a predicate that is changed in
//! place. It holds no machine, runs nothing and reads no memory but the executable's fixed bytes.
#![tactic(auto)]

mod access;
mod bounds;
mod facts;
mod names;
mod results;
mod tables;
mod terms;

pub use access::{
    address_of, bytes_at, known, note_load, note_read, read, store, store_address, write,
};
pub use bounds::assume;
pub use facts::{forget, register, set_flags, set_register};
pub use names::{name, register_name, store_name};
pub use results::{
    alu_fact, alu_term, comparison, inverted_term, negated_term, product_term, shift_term,
};
pub use sym_terms::NoMemory;
pub use tables::{add_values, chosen_targets, loaded_values, table_of};
pub use terms::{cut, minus_number, plus_number, sext};
