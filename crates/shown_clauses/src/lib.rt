//! What the clients of a run were shown and why requests fail (`Whole`, `Caused`), and whether what
//! was served is legal (`Legal`): clauses of the run as tests that compute, in `specs/`.
#![tactic(auto)]
