//! Documents that are read, and what reading told.

use doc_reader::read_document;
use json_form::DocFault;
use outage_schedule::Document;
use std::alloc::Global;
use std::process::Abort;

/// What reading these bytes gives.
pub fn read(alloc: Global, bytes: &[u8]) -> Result<Document, DocFault> {
    read_document(alloc, bytes)
}

/// The document of a text.
pub fn document(rt: &impl Abort, alloc: Global, text: &str) -> Document {
    read(alloc, text.as_bytes()).expect(rt, "a document")
}

/// The code and the pointer of the first fault. A document that is read has the code 0.
pub fn told(read: &Result<Document, DocFault>) -> (u8, &str) {
    match read {
        Ok(_) => (0, ""),
        Err(DocFault::NoMemory) => (0, "no memory"),
        Err(DocFault::At { code, path }) => (code.number(), path.as_str()),
    }
}

/// Sees what reading a text tells.
pub fn is_told(rt: &impl Abort, alloc: Global, text: &str, code: u8, path: &str) {
    let read = read(alloc, text.as_bytes());
    assert_eq!(rt; told(&read), (code, path));
}
