//! What is true of terms that are known after an operation: values, results, flags, bounds and tables. It has no code.
#![tactic(auto)]
