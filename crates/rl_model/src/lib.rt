//! The model of JavaScript functions: the meaning of the source and of graphs, in specs/, and no functions.
#![tactic(auto)]
