//! Tests of the store: what no clause says, by values from outside.
#![tactic(auto)]

#[cfg(test)]
mod adding;
#[cfg(test)]
mod disks;
#[cfg(test)]
mod images;
#[cfg(test)]
mod kinds;
#[cfg(test)]
mod opening;
#[cfg(test)]
mod openings;
#[cfg(test)]
mod records;
#[cfg(test)]
mod sessions;
