//! Tests of what statements mean, of committed tables, of transactions over them, and of drawn
//! values.
#![tactic(auto)]

#[cfg(test)]
mod drawing;
#[cfg(test)]
mod makers;
#[cfg(test)]
mod plain;
#[cfg(test)]
mod script;
#[cfg(test)]
mod tables;
#[cfg(test)]
mod teller;
#[cfg(test)]
mod transactions;
