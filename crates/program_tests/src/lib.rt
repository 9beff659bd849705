//! Tests of the top call over sources and sinks in memory that fail, or go byte by byte, and of the
//! lines that tell of its ends.
#![tactic(auto)]

#[cfg(test)]
mod failing;
#[cfg(test)]
mod judging;
#[cfg(test)]
mod piecewise;
#[cfg(test)]
mod runs;
#[cfg(test)]
mod telling;
