//! Digests of no answer and of one row, whose bytes are told by the format.

use result_digest::{Digesting, digest_of};
use sha2::Digest;
use std::alloc::Global;
use std::process::Abort;
use svc_values::{Answer, NoMemory, Row, Rows, Value};

#[test]
fn a_list_of_no_answer_has_the_digest_of_eight_zero_bytes(rt: HostRuntime) {
    let zero = sha2::Sha256::digest([0u8; 8].as_slice());
    assert!(rt; Digesting::new(rt.alloc(), 0).finish() == zero);
}

fn made_of_one(alloc: Global, answer: &Answer) -> Result<[u8; 32], NoMemory> {
    let mut digesting = Digesting::new(alloc, 1);
    digesting.add(answer)?;
    Ok(digesting.finish())
}

/// An answer of one row.
fn one_row(rt: &impl Abort, alloc: Global, values: [Value; 2]) -> Answer {
    let row = Row::from_vec(Vec::from_array(alloc, values).expect(rt, "memory"));
    let rows = Vec::from_array(alloc, [row]).expect(rt, "memory");
    Answer::Rows(Rows::of(alloc, rows).expect(rt, "memory"))
}

/// Sees that an answer has the digest of the bytes that these digits spell.
fn is_digest(rt: &impl Abort, alloc: Global, answer: Answer, digits: &str) {
    let bytes = hex::decode(alloc, digits).expect(rt, "digits");
    assert_eq!(rt; bytes.len(), 43);
    let wanted = sha2::Sha256::digest(bytes.as_slice());
    assert!(rt; made_of_one(alloc, &answer).expect(rt, "memory") == wanted);
    assert!(rt; digest_of(alloc, [answer].as_slice()).expect(rt, "memory") == wanted);
}

const ROW_OF_100: &str =
    "00000000000000010200000000000000010000000000000002010000000000000001010000000000000064";

const ROW_OF_90: &str =
    "0000000000000001020000000000000001000000000000000201000000000000000101000000000000005a";

#[test]
fn a_read_row_has_the_digest_of_its_43_bytes(rt: HostRuntime) {
    for (balance, digits) in [(100, ROW_OF_100), (90, ROW_OF_90)] {
        let answer = one_row(&rt, rt.alloc(), [Value::Int(1), Value::Int(balance)]);
        is_digest(&rt, rt.alloc(), answer, digits);
    }
}
