//! What a document and its report must have in common: the clauses of a run as tests that compute,
//! in `specs/`. Each clause stands in a file of its own name. Those on what was shown and served
//! are in `shown_clauses`, and the one on scripts is in `script_clauses`.
#![tactic(auto)]
