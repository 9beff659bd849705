//! Tests of the reader of documents, by documents that are too long for a page or of which more is
//! asked than a line. `.ci/documents` has the others: each production of the form with each of its
//! faults, and two faults at once.
#![tactic(auto)]

#[cfg(test)]
mod images;
#[cfg(test)]
mod limits;
#[cfg(test)]
mod makers;
#[cfg(test)]
mod service;
#[cfg(test)]
mod streamed;
#[cfg(test)]
mod whole;
