//! Tests of a report's text and value: forms that few or no reports of `examples/` have.
#![tactic(auto)]

#[cfg(test)]
mod makers;
#[cfg(test)]
mod rare;
#[cfg(test)]
mod values;
