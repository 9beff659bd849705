//! Images of stores, made by hand.

/// A store that was never opened: the tables `acc` (id int, bal int), with one row, and `t` (id
/// int, name text), and three sequences.
pub const SHOP: [u8; 214] = [
    84, 71, 83, 84, 79, 82, 69, 49, // TGSTORE1
    1, 0, 0, 0, 0, 0, 0, 0, 196, // at 8
    1, 0, 0, 0, 0, 0, 0, 0, 2, // two tables
    0, 0, 0, 0, 0, 0, 0, 3, 97, 99, 99, 0, 0, 0, 0, 0, 0, 0, 2, 0, 0, 0, 0, 0, 0, 0, 2, 105, 100,
    1, 0, 0, 0, 0, 0, 0, 0, 3, 98, 97, 108, 1, 0, 0, 0, 0, 0, 0, 0, 1, 0, 0, 0, 0, 0, 0, 0, 2, 1,
    0, 0, 0, 0, 0, 0, 0, 1, 1, 0, 0, 0, 0, 0, 0, 0, 100, // the account 1 with 100
    0, 0, 0, 0, 0, 0, 0, 1, 116, 0, 0, 0, 0, 0, 0, 0, 2, 0, 0, 0, 0, 0, 0, 0, 2, 105, 100, 1, 0, 0,
    0, 0, 0, 0, 0, 4, 110, 97, 109, 101, 2, 0, 0, 0, 0, 0, 0, 0, 0, // no row
    0, 0, 0, 0, 0, 0, 0, 3, // three sequences, each from 1
    0, 0, 0, 0, 0, 0, 0, 1, 110, 0, 0, 0, 0, 0, 0, 0, 1, 0, // n is not kept
    0, 0, 0, 0, 0, 0, 0, 1, 114, 0, 0, 0, 0, 0, 0, 0, 1, 1, 0, 0, 0, 0, 0, 0, 0, 1, 115, 0, 0, 0,
    0, 0, 0, 0, 1, 1, 0, // the closed gate at 213
];

/// A store over a base without tables and sequences, which was never opened.
pub const EMPTY: [u8; 35] = [
    84, 71, 83, 84, 79, 82, 69, 49, // TGSTORE1
    1, 0, 0, 0, 0, 0, 0, 0, 17, 1, 0, 0, 0, 0, 0, 0, 0, 0, 0, 0, 0, 0, 0, 0, 0, 0, // two empty lists, at 8
    0, // the closed gate at 34
];

/// The same, opened once with the horizon 0.
pub const EMPTY_OPENED: [u8; 71] = [
    84, 71, 83, 84, 79, 82, 69, 49, // TGSTORE1
    1, 0, 0, 0, 0, 0, 0, 0, 17, 1, 0, 0, 0, 0, 0, 0, 0, 0, 0, 0, 0, 0, 0, 0, 0, 0, // two empty lists, at 8
    1, 0, 0, 0, 0, 0, 0, 0, 9, 7, 0, 0, 0, 0, 0, 0, 0, 0, // the horizon 0, at 34
    1, 0, 0, 0, 0, 0, 0, 0, 9, 2, 0, 0, 0, 0, 0, 0, 0, 1, // the first opening, at 52
    0, // the closed gate at 70
];

/// The same of format 1, which has no horizon.
pub const OLD: [u8; 53] = [
    84, 71, 83, 84, 79, 82, 69, 49, // TGSTORE1
    1, 0, 0, 0, 0, 0, 0, 0, 17, 1, 0, 0, 0, 0, 0, 0, 0, 0, 0, 0, 0, 0, 0, 0, 0, 0, // two empty lists, at 8
    1, 0, 0, 0, 0, 0, 0, 0, 9, 2, 0, 0, 0, 0, 0, 0, 0, 1, // the first opening, at 34
    0, // the closed gate at 52
];

/// The store of format 1, opened with the horizon 0.
pub const OLD_OPENED: [u8; 89] = [
    84, 71, 83, 84, 79, 82, 69, 49, // TGSTORE1
    1, 0, 0, 0, 0, 0, 0, 0, 17, 1, 0, 0, 0, 0, 0, 0, 0, 0, 0, 0, 0, 0, 0, 0, 0, 0, // two empty lists, at 8
    1, 0, 0, 0, 0, 0, 0, 0, 9, 2, 0, 0, 0, 0, 0, 0, 0, 1, // the first opening, at 34
    1, 0, 0, 0, 0, 0, 0, 0, 9, 7, 0, 0, 0, 0, 0, 0, 0, 0, // the horizon 0, at 52
    1, 0, 0, 0, 0, 0, 0, 0, 9, 2, 0, 0, 0, 0, 0, 0, 0, 2, // the second opening, at 70
    0, // the closed gate at 88
];
