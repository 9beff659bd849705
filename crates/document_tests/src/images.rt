//! Images whose bytes are cut or raised.

use crate::makers::is_told;
use std::alloc::Global;
use std::process::Abort;

/// The bytes of a store of the first format without tables, opened once.
const STORE: &str =
    "544753544f524531010000000000000011010000000000000000000000000000000001000000000000000902000000000000000100";

fn store(rt: &impl Abort, alloc: Global) -> Vec<u8> {
    hex::decode(alloc, STORE).expect(rt, "digits")
}

/// Sees what is told of a document with these bytes as its image.
fn is_told_of(rt: &impl Abort, alloc: Global, bytes: &[u8], code: u8, path: &str) {
    let digits = hex::encode(alloc, bytes).expect(rt, "memory");
    let text = format!(in alloc; r#"{{"clients":[],"image":"{digits}"}}"#).expect(rt, "memory");
    is_told(rt, alloc, text.as_str(), code, path);
}

#[test]
fn each_front_of_an_image_is_damaged(rt: HostRuntime) {
    let bytes = store(&rt, rt.alloc());
    assert_eq!(rt; bytes.len(), 53);
    for length in 0..bytes.len() {
        let front = bytes.get(..length).expect(&rt, "a front");
        is_told_of(&rt, rt.alloc(), front, 9, "/image");
    }
}

/// The store with one byte raised.
fn raised(rt: &impl Abort, alloc: Global, at: usize) -> Vec<u8> {
    let mut bytes = store(rt, alloc);
    if let Some(byte) = bytes.get_mut(at) {
        *byte = byte.wrapping_add(1);
    }
    bytes
}

/// With one byte raised the bytes are still those of a store where the gate before the opening is
/// closed by it, and where the opening's incarnation is another.
fn wanted(at: usize) -> (u8, &'static str) {
    match at {
        34 | 44..=51 => (0, ""),
        _ => (9, "/image"),
    }
}

#[test]
fn each_byte_of_an_image_that_is_raised_is_found(rt: HostRuntime) {
    for at in 0..53 {
        let (code, path) = wanted(at);
        is_told_of(&rt, rt.alloc(), &raised(&rt, rt.alloc(), at), code, path);
    }
}
