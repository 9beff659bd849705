//! What the service tells, as a text. Each part is added to the text before it.

use commit_log::{Journal, Recorded, Reservation};
use ltxid_book::Verdict;
use service_calls::{Ended, Outside, Run};
use std::alloc::Global;
use std::process::Abort;
use svc_values::{Ahead, Answer, Down, Draw, Entry, Ltxid, Row, Text, Value};
use table_store::{TableRows, Tables};

/// A text with these words.
pub fn words(rt: &impl Abort, alloc: Global, words: &str) -> String {
    String::from_str(alloc, words).expect(rt, "a text")
}

fn add(rt: &impl Abort, text: &mut String, more: &str) {
    text.push_str(more).expect(rt, "a text");
}

/// Adds a mark between items: before each but the first.
fn add_between(rt: &impl Abort, text: &mut String, mark: &str, place: usize) {
    if place > 0 {
        add(rt, text, mark);
    }
}

fn add_number(rt: &impl Abort, text: &mut String, number: u64) {
    write!(text, "{number}").expect(rt, "a text");
}

fn add_integer(rt: &impl Abort, text: &mut String, number: i64) {
    write!(text, "{number}").expect(rt, "a text");
}

fn add_named(rt: &impl Abort, text: &mut String, name: &str, number: u64) {
    add(rt, text, name);
    add_number(rt, text, number);
}

fn add_bytes(rt: &impl Abort, text: &mut String, bytes: &[u8]) {
    for byte in bytes {
        write!(text, "{byte:02x}").expect(rt, "a text");
    }
}

fn add_value(rt: &impl Abort, text: &mut String, value: &Value) {
    match value {
        Value::Int(number) => add_integer(rt, text, *number),
        Value::Text(word) => add(rt, text, word.as_str()),
        Value::Bytes(bytes) => add_bytes(rt, text, bytes.as_slice()),
    }
}

/// The values with a blank between them, in brackets.
fn add_row(rt: &impl Abort, text: &mut String, row: &Row) {
    add(rt, text, "[");
    for (place, value) in row.as_slice().iter().enumerate() {
        add_between(rt, text, " ", place);
        add_value(rt, text, value);
    }
    add(rt, text, "]");
}

fn add_rows(rt: &impl Abort, text: &mut String, rows: &[Row]) {
    if rows.is_empty() {
        add(rt, text, "no row");
    }
    for row in rows {
        add_row(rt, text, row);
    }
}

fn add_answer(rt: &impl Abort, text: &mut String, answer: &Answer) {
    match answer {
        Answer::Done(count) => add_named(rt, text, "done ", *count),
        Answer::Rows(rows) => add_rows(rt, text, rows.as_slice()),
        Answer::Number(number) => {
            add(rt, text, "number ");
            add_integer(rt, text, *number);
        }
        Answer::Committed => add(rt, text, "committed"),
        Answer::Conflict => add(rt, text, "conflict"),
        Answer::RolledBack => add(rt, text, "rolled back"),
        Answer::CommitInReplay => add(rt, text, "commit in replay"),
        Answer::Refused(fault) => write!(text, "refused {fault:?}").expect(rt, "a text"),
    }
}

/// The answers with a comma between them.
fn add_answers(rt: &impl Abort, text: &mut String, answers: &[Answer]) {
    for (place, answer) in answers.iter().enumerate() {
        add_between(rt, text, ", ", place);
        add_answer(rt, text, answer);
    }
}

fn add_draw(rt: &impl Abort, text: &mut String, draw: &Draw) {
    match draw {
        Draw::Seq { name, value } => {
            add(rt, text, name.as_str());
            add(rt, text, " ");
            add_integer(rt, text, *value);
        }
        Draw::Clock { tick } => add_named(rt, text, "clock ", *tick),
        Draw::Id { id } => {
            add(rt, text, "id ");
            add_bytes(rt, text, id.as_slice());
        }
    }
}

/// The draws, each behind a comma.
fn add_draws(rt: &impl Abort, text: &mut String, draws: &[Draw]) {
    for draw in draws {
        add(rt, text, ", drew ");
        add_draw(rt, text, draw);
    }
}

/// The three parts of an identifier.
fn add_ltxid(rt: &impl Abort, text: &mut String, ltxid: &Ltxid) {
    add_number(rt, text, ltxid.incarnation);
    add_named(rt, text, ".", ltxid.session);
    add_named(rt, text, ".", ltxid.number);
}

fn of_ahead(ahead: Ahead) -> &'static str {
    match ahead {
        Ahead::Server => "server ahead ",
        Ahead::Client => "client ahead ",
        Ahead::Forgotten => "forgotten ",
    }
}

fn add_ahead(rt: &impl Abort, text: &mut String, ahead: Ahead, next: u64) {
    add_named(rt, text, of_ahead(ahead), next);
}

fn add_outcome(rt: &impl Abort, text: &mut String, committed: bool, completed: bool) {
    write!(text, "committed {committed}, completed {completed}").expect(rt, "a text");
}

fn add_reply(
    rt: &impl Abort,
    text: &mut String,
    answers: &[Answer],
    draws: &[Draw],
    ltxid: &Ltxid,
) {
    add_answers(rt, text, answers);
    add_draws(rt, text, draws);
    add(rt, text, " at ");
    add_ltxid(rt, text, ltxid);
}

fn add_down(rt: &impl Abort, text: &mut String, down: &Down) {
    match down {
        Down::Hello { ltxid } => {
            add(rt, text, "hello ");
            add_ltxid(rt, text, ltxid);
        }
        Down::Reply {
            answers,
            draws,
            ltxid,
        } => add_reply(rt, text, answers.as_slice(), draws.as_slice(), ltxid),
        Down::OutcomeIs {
            committed,
            completed,
        } => add_outcome(rt, text, *committed, *completed),
        Down::OutcomeRefused { ahead, next } => add_ahead(rt, text, *ahead, *next),
        Down::Blocked => add(rt, text, "blocked"),
        Down::Refused { cause } => add_named(rt, text, "refused ", u64::from(*cause)),
    }
}

/// What is told of a frame.
pub fn of_down(rt: &impl Abort, alloc: Global, told: &Option<Down>) -> String {
    let mut text = String::new(alloc);
    match told {
        None => add(rt, &mut text, "nothing"),
        Some(down) => add_down(rt, &mut text, down),
    }
    text
}

fn add_verdict(rt: &impl Abort, text: &mut String, verdict: Verdict) {
    match verdict {
        Verdict::Committed { completed } => add_outcome(rt, text, true, completed),
        Verdict::BlockIt => add(rt, text, "still to be blocked"),
        Verdict::AlreadyBlocked => add_outcome(rt, text, false, false),
        Verdict::ServerAhead { next } => add_ahead(rt, text, Ahead::Server, next),
        Verdict::ClientAhead { next } => add_ahead(rt, text, Ahead::Client, next),
        Verdict::Forgotten { horizon } => add_ahead(rt, text, Ahead::Forgotten, horizon),
    }
}

/// What is told of an identifier from outside.
pub fn of_verdict(rt: &impl Abort, alloc: Global, verdict: Verdict) -> String {
    let mut text = String::new(alloc);
    add_verdict(rt, &mut text, verdict);
    text
}

fn add_run(rt: &impl Abort, text: &mut String, run: &Run) {
    add(rt, text, "; ");
    add_answers(rt, text, run.answers.as_slice());
    add_draws(rt, text, run.draws.as_slice());
}

/// What calls from outside are told: the first identifier of their session, and what each that ran
/// was answered.
pub fn of_outside(rt: &impl Abort, alloc: Global, ran: &Outside) -> String {
    let mut text = String::new(alloc);
    add_ltxid(rt, &mut text, &ran.ltxid);
    for run in ran.runs.as_slice() {
        add_run(rt, &mut text, run);
    }
    text
}

fn add_entries(rt: &impl Abort, text: &mut String, entries: &[Entry]) {
    for entry in entries {
        let completed = entry.completed;
        add(rt, text, ", entry ");
        add_ltxid(rt, text, &entry.ltxid);
        write!(text, " completed {completed}").expect(rt, "a text");
    }
}

fn add_blocks(rt: &impl Abort, text: &mut String, blocked: &[Ltxid]) {
    for x in blocked {
        add(rt, text, ", blocked ");
        add_ltxid(rt, text, x);
    }
}

fn add_reservations(rt: &impl Abort, text: &mut String, reserved: &[Reservation]) {
    for reservation in reserved {
        add(rt, text, ", ");
        add(rt, text, reservation.name.as_str());
        add(rt, text, " to ");
        add_integer(rt, text, reservation.upto);
    }
}

fn add_lines(rt: &impl Abort, text: &mut String, lines: &[Text]) {
    for line in lines {
        add(rt, text, ", line ");
        add(rt, text, line.as_str());
    }
}

/// Adds what a journal holds beside its opening: its horizon, the identifiers of its entries,
/// those that are blocked, the ends of its reservations and its lines.
fn add_kept(rt: &impl Abort, text: &mut String, journal: &Journal) {
    add_named(rt, text, "horizon ", journal.horizon);
    add_entries(rt, text, journal.entries.as_slice());
    add_blocks(rt, text, journal.blocked.as_slice());
    add_reservations(rt, text, journal.reserved.as_slice());
    add_lines(rt, text, journal.alerts.as_slice());
}

/// What a journal holds beside its opening.
pub fn of_kept(rt: &impl Abort, alloc: Global, journal: &Journal) -> String {
    let mut text = String::new(alloc);
    add_kept(rt, &mut text, journal);
    text
}

/// What a journal holds: its opening, and the rest.
pub fn of_journal(rt: &impl Abort, alloc: Global, journal: &Journal) -> String {
    let mut text = String::new(alloc);
    add_named(rt, &mut text, "opened ", journal.incarnation);
    add(rt, &mut text, ", ");
    add_kept(rt, &mut text, journal);
    text
}

/// Adds what the records behind a base say: the horizon, the identifiers of the entries, those
/// that are blocked, and the lines.
fn add_recorded(rt: &impl Abort, text: &mut String, recorded: &Recorded) {
    add_named(rt, text, "horizon ", recorded.horizon);
    add_entries(rt, text, recorded.entries.as_slice());
    add_blocks(rt, text, recorded.blocked.as_slice());
    add_lines(rt, text, recorded.alerts.as_slice());
}

fn add_table(rt: &impl Abort, text: &mut String, one: &TableRows) {
    add(rt, text, ", ");
    add(rt, text, one.table.as_str());
    add(rt, text, " ");
    add_rows(rt, text, one.rows.as_slice());
}

fn add_tables(rt: &impl Abort, text: &mut String, tables: Tables) {
    let all = tables.into_rows().expect(rt, "the rows");
    for one in all.as_slice() {
        add_table(rt, text, one);
    }
}

/// What a service leaves at its end: what was recorded, and the rows of each table.
pub fn of_ended(rt: &impl Abort, alloc: Global, ended: Ended) -> String {
    let Ended { recorded, tables } = ended;
    let mut text = String::new(alloc);
    add_recorded(rt, &mut text, &recorded);
    add_tables(rt, &mut text, tables);
    text
}
