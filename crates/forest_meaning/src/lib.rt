//! What a memory forest means, as definitions: when it is true of a memory, and what is assumed of frame and pairs.
#![tactic(auto)]
