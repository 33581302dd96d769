//! Runs of graphs under construction: definitions and lemmas of a builder's states, and no functions.
#![tactic(auto)]
