//! Tests of bytes, frames, digests and JSON, by the vectors of the formats, and of the adapters.
#![tactic(auto)]

#[cfg(test)]
mod digests;
#[cfg(test)]
mod entries;
#[cfg(test)]
mod faults;
#[cfg(test)]
mod frames;
#[cfg(test)]
mod json;
#[cfg(test)]
mod streams;
