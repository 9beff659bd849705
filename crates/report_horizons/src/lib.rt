//! The horizon at each event of a report, below which outcomes are forgotten.
#![tactic(auto)]

mod horizons;
mod wanted_horizons;

pub use horizons::wanted_in;
pub use wanted_horizons::{WantedHorizons, raised};
