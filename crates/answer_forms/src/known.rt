//! Rows that a report tells several times, of which one list is kept.
ghost use Rattle.std.specs.Prelude.{◌≡◌, ◌∷◌, [], take, IsTrue, IfSome};
ghost use Rattle.std.specs.Cmp.Lexicographic.{pointwise};
ghost use Rattle.svc_values.specs.meaning.Same.{same_value};

use outage_schedule::{RequestReport, Transcript, Transcripts};
use std::alloc::Global;
use svc_values::laws::compares_exactly;
use svc_values::{Answer, KeyMap, NoMemory, Row, Rows, TryCopy, Value};

/// By what a number is multiplied with each part, once it was turned by five bits.
const FACTOR: u64 = 0x517c_c1b7_2722_0a95;

fn with_part(number: u64, part: u64) -> u64 {
    (number.rotate_left(5) ^ part).wrapping_mul(FACTOR)
}

/// The number that at most eight bytes are.
fn part_of(bytes: &[u8]) -> u64 {
    if let Ok(eight) = <[u8; 8]>::try_from(bytes) {
        return u64::from_le_bytes(eight);
    }
    let mut part = 0;
    for byte in bytes {
        part = (part << 8) | *byte as u64;
    }
    part
}

fn with_bytes(number: u64, bytes: &[u8]) -> u64 {
    let mut all = with_part(number, bytes.len() as u64);
    for part in bytes.chunks(8) {
        all = with_part(all, part_of(part));
    }
    all
}

fn with_value(number: u64, value: &Value) -> u64 {
    match value {
        Value::Int(n) => with_part(number, n.unsigned_abs()),
        Value::Text(text) => with_bytes(number, text.as_str().as_bytes()),
        Value::Bytes(bytes) => with_bytes(number, bytes.as_slice()),
    }
}

fn with_row(number: u64, row: &Row) -> u64 {
    let mut all = with_part(number, row.len() as u64);
    for value in row.as_slice() {
        all = with_value(all, value);
    }
    all
}

/// A number that is the same of the same rows, and seldom of others. Linear in their bytes.
fn number_of(rows: &[Row]) -> u64 {
    let mut all = rows.len() as u64;
    for row in rows {
        all = with_row(all, row);
    }
    all
}

/// Whether the two are the same rows.
fn are_same(one: &Rows, other: &Rows) -> bool
    ensures { result ≡ pointwise (pointwise same_value) one.now other.now }
{
    compares_exactly();
    *one == *other
}

/// Whether the rows begin with this one.
fn begin_with(rows: &Rows, first: &Row) -> bool
    ensures { IsTrue result → take 1 rows.now ≡ first.now ∷ [] }
{
    compares_exactly();
    match rows.as_slice() {
        [] => false,
        [row, ..] => *row == *first,
    }
}

/// These rows, which are held once where the known ones are the same.
fn held_once(alloc: Global, known: &Rows, rows: Rows) -> Rows
    ensures { result ≡ rows }
{
    if are_same(known, &rows) {
        return match known.copy(alloc) {
            Ok(copy) => copy,
            Err(NoMemory) => rows,
        };
    }
    rows
}

/// Rows that clients were shown, by their numbers, and by that of the first row. What was stored
/// and what was served tell the same rows again. Which rows are known decides no answer, but for
/// the memory that is held.
#[derive(Drop)]
pub struct KnownRows {
    rows: KeyMap<u64, Rows>,
    firsts: KeyMap<u64, Rows>,
}

impl KnownRows {
    /// No rows.
    pub fn new(alloc: Global) -> KnownRows {
        KnownRows {
            rows: KeyMap::new(alloc),
            firsts: KeyMap::new(alloc),
        }
    }

    /// The rows that these clients were shown, or those before memory was refused. It takes the
    /// time of their bytes, and n log n for n lists of rows.
    pub fn shown(alloc: Global, clients: &Transcripts) -> KnownRows {
        let mut known = KnownRows::new(alloc);
        for client in clients.as_slice() {
            if known.note_client(alloc, client).is_err() {
                return known;
            }
        }
        known
    }

    fn note_client(&mut self, alloc: Global, client: &Transcript) -> Result<(), NoMemory> {
        for request in client.as_slice() {
            self.note_request(alloc, request)?;
        }
        Ok(())
    }

    fn note_request(&mut self, alloc: Global, request: &RequestReport) -> Result<(), NoMemory> {
        for call in request.calls.as_slice() {
            self.note_answers(alloc, call.answers.as_slice())?;
        }
        Ok(())
    }

    fn note_answers(&mut self, alloc: Global, answers: &[Answer]) -> Result<(), NoMemory> {
        for answer in answers {
            if let Answer::Rows(rows) = answer {
                self.note_rows(alloc, rows)?;
            }
        }
        Ok(())
    }

    fn note_rows(&mut self, alloc: Global, rows: &Rows) -> Result<(), NoMemory> {
        if let [first, ..] = rows.as_slice() {
            self.firsts.put(with_row(0, first), rows.copy(alloc)?)?;
        }
        self.rows
            .put(number_of(rows.as_slice()), rows.copy(alloc)?)?;
        Ok(())
    }

    /// Known rows that begin with this one, if there are any.
    pub(crate) fn beginning_with(&self, first: &Row) -> Option<&Rows>
        ensures { IfSome result (λ rows. take 1 rows.now ≡ first.now ∷ []) }
    {
        let rows = self.firsts.get(&with_row(0, first))?;
        if !begin_with(rows, first) {
            return None;
        }
        Some(rows)
    }

    /// These rows, which are held once where they are known.
    pub(crate) fn once(&self, alloc: Global, rows: Rows) -> Rows
        ensures { result ≡ rows }
    {
        match self.rows.get(&number_of(rows.as_slice())) {
            Some(known) => held_once(alloc, known, rows),
            None => rows,
        }
    }
}
