//! Runs of graphs: values, answers, events and traces. The machine that runs a graph stands in specs/, and so do the conditions under
//! which passes over a graph keep its runs.
#![tactic(auto)]

pub mod trace;
