//! Reading of documents: the document that bytes are, or the first fault and its place.
#![tactic(auto)]

mod counts;
mod document;
mod image;
mod streamed;

pub use document::{document_from, read_document};
pub use document_limits::DOCUMENT_LIMIT;
pub use streamed::document_ahead;
