//! Derivations of the lowering: what relates a part of a function to the states of its builder before and after it, and what follows.
//! No functions.
#![tactic(auto)]
