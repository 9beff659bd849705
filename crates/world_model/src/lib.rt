//! The world as a pure machine, in `specs/`: it walks the events of a run with their notes and the
//! items that were served (`Followed`), and judges what was served (`Judged`). What of its states
//! stands on itself is a record of tests (`Orderly`). `laws` says that each of them is kept, that a
//! run is followed and orderly, and that the finish ends.
#![tactic(auto)]

pub mod laws;
