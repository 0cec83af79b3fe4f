//! The function that is built of what was found and is known: what it is, and what its look-ups find.
#![tactic(auto)]
