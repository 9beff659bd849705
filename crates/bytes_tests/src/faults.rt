//! Faults by kind and place, told by hand from the format.

use canon_bytes::{
    CanonFault, take_answer, take_answers, take_call, take_ltxid, take_name, take_row,
    take_settings, take_text,
};
use std::process::Abort;

/// Sees that bytes were refused for this fault.
fn has<T: Drop>(rt: &impl Abort, taken: Result<(T, usize), CanonFault>, fault: CanonFault) {
    assert_eq!(rt; taken.err(), Some(fault));
}

const ANSWERS: [(&[u8], CanonFault); 5] = [
    (&[9], CanonFault::BadTag { at: 0 }),
    (&[1, 0], CanonFault::Short { at: 2 }),
    (&[8, 0], CanonFault::BadTag { at: 1 }),
    (&[8, 10], CanonFault::BadTag { at: 1 }),
    (&[], CanonFault::Short { at: 0 }),
];

#[test]
fn answers(rt: HostRuntime) {
    for (bytes, fault) in ANSWERS {
        has(&rt, take_answer(rt.alloc(), bytes), fault);
    }
    let nine_values = [0, 0, 0, 0, 0, 0, 0, 9];
    let count = CanonFault::BadPart { at: 0 };
    has(&rt, take_row(rt.alloc(), &nine_values), count);
    let second_tag = [0, 0, 0, 0, 0, 0, 0, 2, 4, 44];
    let tag = CanonFault::BadTag { at: 9 };
    has(&rt, take_answers(rt.alloc(), &second_tag), tag);
}

const TEXTS: [(&[u8], CanonFault); 4] = [
    (&[0, 0, 0, 0, 0, 0, 0], CanonFault::Short { at: 7 }),
    (
        &[0, 0, 0, 0, 0, 0, 0, 3, 104, 105],
        CanonFault::Short { at: 10 },
    ),
    (&[0, 0, 0, 0, 0, 0, 0, 65], CanonFault::BadPart { at: 0 }),
    (
        &[0, 0, 0, 0, 0, 0, 0, 3, 104, 0xC3, 0x28],
        CanonFault::BadText { at: 9 },
    ),
];

const NAMES: [(&[u8], CanonFault); 4] = [
    (&[0, 0, 0, 0, 0, 0, 0, 0], CanonFault::BadPart { at: 0 }),
    (&[0, 0, 0, 0, 0, 0, 0, 17], CanonFault::BadPart { at: 0 }),
    (&[0, 0, 0, 0, 0, 0, 0, 1, 65], CanonFault::BadPart { at: 0 }),
    (
        &[0, 0, 0, 0, 0, 0, 0, 2, 97, 0xC3],
        CanonFault::BadPart { at: 0 },
    ),
];

#[test]
fn texts_and_names(rt: HostRuntime) {
    for (bytes, fault) in TEXTS {
        has(&rt, take_text(rt.alloc(), bytes), fault);
    }
    for (bytes, fault) in NAMES {
        has(&rt, take_name(rt.alloc(), bytes), fault);
    }
}

const EMPTY_WORK: [u8; 10] = [1, 0, 0, 0, 0, 0, 0, 0, 0, 0];

const NINE_STATEMENTS: [u8; 9] = [1, 0, 0, 0, 0, 0, 0, 0, 9];

/// The settings b and then a.
const B_THEN_A: [u8; 36] = [
    0, 0, 0, 0, 0, 0, 0, 2, 0, 0, 0, 0, 0, 0, 0, 1, 98, 1, 0, 0, 0, 0, 0, 0, 0, 5, 0, 0, 0, 0, 0,
    0, 0, 1, 97, 9,
];

const LARGE_SESSION: [u8; 16] = [0, 0, 0, 0, 0, 0, 0, 1, 128, 0, 0, 0, 0, 0, 0, 1];

#[test]
fn calls_settings_and_identifiers(rt: HostRuntime) {
    let alloc = rt.alloc();
    let count = CanonFault::BadPart { at: 0 };
    has(&rt, take_call(alloc, &EMPTY_WORK), count);
    let statements = CanonFault::BadPart { at: 1 };
    has(&rt, take_call(alloc, &NINE_STATEMENTS), statements);
    let order = CanonFault::BadPart { at: 26 };
    has(&rt, take_settings(alloc, &B_THEN_A), order);
    let session = CanonFault::BadPart { at: 8 };
    has(&rt, take_ltxid(alloc, &LARGE_SESSION), session);
}
