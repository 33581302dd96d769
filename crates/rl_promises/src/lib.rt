//! The nodes that the lowering covers, the stops and rows of a function, and the promises of a result: definitions and lemmas, and no
//! functions.
#![tactic(auto)]
