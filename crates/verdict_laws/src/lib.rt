//! Of what `run` prints, `check` tells no clause, and says yes. It has laws, and no code.
#![tactic(auto)]

pub mod laws;
