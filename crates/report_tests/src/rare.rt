//! A report of such forms.

use crate::makers::{empty, limited, listed, ltxid, name, octets, text};
use outage_schedule::{
    Alerts, AskResult, GoNote, Item, Note, Notes, Report, ReportTable, Served, ServedItems,
};
use std::alloc::Global;
use std::process::Abort;
use svc_values::{
    Answer, Answers, Call, Draws, Row, Rows, SessionId, Settings, StatementFault, Value,
};

/// Two lines, not in the order of their bytes.
fn alerts(rt: &impl Abort, alloc: Global) -> Alerts {
    let flush = text(rt, alloc, "flush");
    let again = text(rt, alloc, "again");
    listed(rt, alloc, [flush, again])
}

/// Notes of events that came to nothing.
fn notes(rt: &impl Abort, alloc: Global) -> Notes {
    let client = 1;
    let connection = 4;
    let notes = [
        Note::Go {
            client,
            did: GoNote::Idle,
        },
        Note::Go {
            client,
            did: GoNote::Early,
        },
        Note::Serve {
            connection,
            frame: None,
        },
        Note::Cut {
            connection,
            reached: None,
        },
        Note::Reap {
            connection,
            reaped: false,
        },
        Note::Crash {
            connection,
            down: true,
        },
        Note::Up { incarnation: None },
        Note::UpCrash { made: false },
        Note::Ask {
            ltxid: ltxid(1, 0),
            told: None,
        },
        Note::Outside { ran: None },
    ];
    listed(rt, alloc, notes)
}

const NOTES: &str =
    r#"[["go",1,"idle"],["go",1,"early"],["serve",4,"none"],["cut",4,"none"],["reap",4,"none"],["crash",4,"down"],["up","none"],["upcrash","none"],["ask",[1,1,0],"down"],["outside","down"]]"#;

/// Two settings, not in the order of their names.
fn settings(rt: &impl Abort, alloc: Global) -> Settings {
    let mut settings = Settings::new(alloc);
    for (text, number) in [("zone", 2), ("lang", 1)] {
        let name = name(rt, alloc, text);
        settings.put(name, Value::Int(number)).expect(rt, "memory");
    }
    settings
}

/// A row of bytes that a JSON text escapes, and of no octets.
fn escaped(rt: &impl Abort, alloc: Global) -> Rows {
    let escaped = Value::Text(text(rt, alloc, "\"\\\u{1}\n\u{e4}"));
    let none = octets(rt, alloc, &[]);
    let row: Row = limited(rt, alloc, [escaped, none]);
    limited(rt, alloc, [row])
        .into_shared(alloc)
        .expect(rt, "memory")
}

fn answers(rt: &impl Abort, alloc: Global) -> Answers {
    let rows = escaped(rt, alloc);
    let answers = [
        Answer::Done(u64::MAX),
        Answer::Number(i64::MIN),
        Answer::RolledBack,
        Answer::Refused(StatementFault::NoSequence),
        Answer::Refused(StatementFault::NoVar),
        Answer::Refused(StatementFault::TooManyRows),
        Answer::Rows(rows),
    ];
    listed(rt, alloc, answers)
}

/// What the first session served at the event 13.
fn at(item: Item) -> Served {
    let session = SessionId {
        incarnation: 1,
        session: 1,
    };
    Served {
        event: 13,
        session,
        item,
    }
}

fn outcome(told: AskResult) -> Served {
    at(Item::Outcome {
        ltxid: ltxid(2, 0),
        result: told,
    })
}

fn served(rt: &impl Abort, alloc: Global) -> ServedItems {
    let settings = settings(rt, alloc);
    let call = Item::Call {
        replay: false,
        call: Call::Rollback,
        answers: answers(rt, alloc),
        draws: Draws::new(alloc),
    };
    let served = [
        at(Item::Begin { settings }),
        at(call),
        outcome(AskResult::ServerAhead { next: 1 }),
        outcome(AskResult::ClientAhead { next: 7 }),
        at(Item::CrashedOutcome { ltxid: ltxid(1, 1) }),
        at(Item::Refused { cause: 2 }),
    ];
    listed(rt, alloc, served)
}

const BEGIN: &str = r#"["begin",13,[1,1],[["lang",1],["zone",2]]]"#;

const CALL: &str =
    "[\"call\",13,[1,1],false,[[\"rollback\"]],[{\"done\":18446744073709551615},{\"number\":-9223372036854775808},\"rolledback\",{\"refused\":5},{\"refused\":6},{\"refused\":7},{\"rows\":[[\"\\\"\\\\\\u0001\\n\u{e4}\",{\"hex\":\"\"}]]}],[]]";

const OUTCOMES: &str =
    r#"["outcome",13,[1,1],[1,2,0],"serverahead",1],["outcome",13,[1,1],[1,2,0],"clientahead",7],["crashed",13,[1,1],[1,1,1]],["refused",13,[1,1],2]"#;

/// A row with a value of each kind.
fn row(rt: &impl Abort, alloc: Global, number: i64, word: &str, bytes: &[u8]) -> Row {
    let word = Value::Text(text(rt, alloc, word));
    let bytes = octets(rt, alloc, bytes);
    limited(rt, alloc, [Value::Int(number), word, bytes])
}

fn table(rt: &impl Abort, alloc: Global) -> ReportTable {
    let least = row(rt, alloc, i64::MIN, "", &[]);
    let quoted = row(rt, alloc, 7, "a \"b\"", &[0, 171]);
    ReportTable {
        name: name(rt, alloc, "t"),
        rows: listed(rt, alloc, [least, quoted]),
    }
}

const TABLE: &str = r#"["t",[[-9223372036854775808,"",{"hex":""}],[7,"a \"b\"",{"hex":"00ab"}]]]"#;

/// A report of all of these, with a horizon and an image.
pub fn rare(rt: &impl Abort, alloc: Global) -> Report {
    let mut report = empty(alloc);
    report.alerts = alerts(rt, alloc);
    report.forgotten = 3;
    report.image = Some(listed(rt, alloc, *b"TGSTORE1\x01\0"));
    report.notes = notes(rt, alloc);
    report.served = served(rt, alloc);
    report.tables = listed(rt, alloc, [table(rt, alloc)]);
    report
}

/// Its text, in parts.
pub const RARE: [&str; 11] = [
    r#"{"alerts":["flush","again"],"blocked":[],"clients":[],"entries":[],"forgotten":3,"image":"544753544f5245310100","notes":"#,
    NOTES,
    r#","served":["#,
    BEGIN,
    ",",
    CALL,
    ",",
    OUTCOMES,
    r#"],"tables":["#,
    TABLE,
    "]}",
];
