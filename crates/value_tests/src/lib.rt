//! Tests of values: what no clause says.
#![tactic(auto)]

#[cfg(test)]
mod calls;
#[cfg(test)]
mod keys;
#[cfg(test)]
mod lists;
#[cfg(test)]
mod makers;
#[cfg(test)]
mod texts;
