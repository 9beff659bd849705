//! Tests of a service, which run it on a disk in memory: conversations with its sessions as
//! tables, crashes at each device call, outcomes, openings, and frames that no client sends.
#![tactic(auto)]

#[cfg(test)]
mod ages;
#[cfg(test)]
mod bench;
#[cfg(test)]
mod commits;
#[cfg(test)]
mod crashes;
#[cfg(test)]
mod draws;
#[cfg(test)]
mod failures;
#[cfg(test)]
mod frames;
#[cfg(test)]
mod images;
#[cfg(test)]
mod known;
#[cfg(test)]
mod openings;
#[cfg(test)]
mod order;
#[cfg(test)]
mod outcomes;
#[cfg(test)]
mod outsiders;
#[cfg(test)]
mod pairing;
#[cfg(test)]
mod pairs;
#[cfg(test)]
mod said;
#[cfg(test)]
mod script;
#[cfg(test)]
mod steps;
