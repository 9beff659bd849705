//! Transactions whose values are drawn from a source of an opening.
ghost use Rattle.std.specs.Prelude.{◌≡◌, ◌+ℤ◌, IsTrue, int_le, pos};

use crate::makers::{draws_of_s, name, no_rows, sequences};
use crate::script::{Does, Puts, Says, answer, statements};
use mutable_values::{Drawn, Grants, Kept, SeqState, Source};
use std::alloc::Global;
use std::process::Abort;
use svc_values::{Draw, DrawKind, Draws, Names, Settings, is_of_kind, is_there};
use table_txn::{DrawFrom, DrawFromFault, Known, Txn};

/// A source whose reservations are stored at once, with the draws that are kept.
#[derive(Drop)]
struct Reserving {
    names: Names,
    source: Source,
    kept: Kept,
    /// Where the last reservation ends.
    end: Option<i64>,
}

impl Reserving {
    /// The value of a draw at tick 7, if that is what the draw comes to. A reservation that it
    /// asks for is taken into use.
    fn value(&mut self, alloc: Global, kind: &DrawKind) -> Option<Draw>
        ensures { self.new.names ≡ self.old.names }
    {
        if !self.source.has_room() {
            return None;
        }
        match self.source.draw(alloc, kind, &mut self.kept, 7) {
            Ok(Drawn::Value(draw)) => Some(draw),
            Ok(Drawn::Reserve { name, upto }) => {
                self.source.reserved(&name, upto);
                self.end = Some(upto);
                None
            }
            Err(_) => None,
        }
    }

    /// The same, once the reservation that it asks for is stored.
    fn value_at_last(&mut self, alloc: Global, kind: &DrawKind) -> Option<Draw>
        ensures { self.new.names ≡ self.old.names }
    {
        match self.value(alloc, kind) {
            None => self.value(alloc, kind),
            Some(draw) => Some(draw),
        }
    }
}

impl DrawFrom for Reserving {
    ghost use Rattle.meaning_tests.specs.Anything.{Anything};

    ghost names = { λ s. s.names };

    ghost drew = { Anything };

    fn draw(&mut self, alloc: Global, kind: &DrawKind) -> Result<Draw, DrawFromFault> {
        if !is_there(&self.names, kind) {
            return Err(DrawFromFault::NoSequence);
        }
        match self.value_at_last(alloc, kind) {
            Some(draw) if is_of_kind(kind, &draw) => Ok(draw),
            _ => Err(DrawFromFault::Stopped),
        }
    }
}

/// A source of incarnation 2 whose one sequence is s, with no kept draw.
fn source_of(rt: &impl Abort, alloc: Global, next: i64, upto: i64) -> Reserving
    requires { IsTrue (int_le next (upto +ℤ pos 1)) }
{
    let mut states = Vec::new(alloc);
    let name = name(rt, alloc, "s");
    states
        .push(SeqState {
            name,
            next,
            upto,
            keep: true,
        })
        .expect(rt, "a sequence");
    Reserving {
        names: sequences(rt, alloc),
        source: Source::new(2, states),
        kept: Kept::none(alloc),
        end: None,
    }
}

/// Whether a transaction that shows the next value of s is answered so.
fn shows(rt: &impl Abort, alloc: Global, source: &mut Reserving, wanted: i64) -> bool {
    let statements = statements(rt, alloc, &[Does::Show(Puts::Next("s"))]);
    let tables = no_rows(rt, alloc);
    let mut txn = Txn::new(alloc);
    let ran = txn
        .run(
            &tables,
            Known::All,
            &Settings::new(alloc),
            &statements,
            source,
        )
        .expect(rt, "answers");
    ran.answers.get(0) == Some(&answer(rt, alloc, Says::Value(wanted)))
}

#[test]
fn a_sequence_goes_on_in_reservations(rt: HostRuntime) {
    let alloc = rt.alloc();
    let mut source = source_of(&rt, alloc, 1, 0);
    for value in 1..17 {
        assert!(rt; shows(&rt, alloc, &mut source, value));
    }
    assert!(rt; source.end == Some(16));
    assert!(rt; shows(&rt, alloc, &mut source, 17));
    assert!(rt; source.end == Some(32));
    let mut reopened = source_of(&rt, alloc, 17, 16);
    assert!(rt; shows(&rt, alloc, &mut reopened, 17));
    assert!(rt; reopened.end == Some(32));
}

/// A source whose next new value is 9, with these draws where they are granted.
fn granted(rt: &impl Abort, alloc: Global, seq: bool, draws: &Draws) -> Reserving {
    let mut source = source_of(rt, alloc, 9, 16);
    let grants = Grants {
        seq,
        clock: true,
        id: true,
    };
    let kept = source.source.granted(alloc, &grants, draws);
    source.kept = kept.expect(rt, "kept draws");
    source
}

#[test]
fn granted_values_come_first(rt: HostRuntime) {
    let draws = draws_of_s(&rt, rt.alloc(), [5, 7]);
    for (seq, values) in [(true, [5, 7, 9]), (false, [9, 10, 11])] {
        let mut source = granted(&rt, rt.alloc(), seq, &draws);
        for value in values {
            assert!(rt; shows(&rt, rt.alloc(), &mut source, value));
        }
    }
}

#[test]
fn identifier_values_are_counted(rt: HostRuntime) {
    let alloc = rt.alloc();
    let mut source = source_of(&rt, alloc, 1, 0);
    for last in [1, 2] {
        let drawn = source.value(alloc, &DrawKind::Id);
        let wanted = [0, 0, 0, 0, 0, 0, 0, 2, 0, 0, 0, 0, 0, 0, 0, last];
        assert!(rt; matches!(drawn, Some(Draw::Id { id }) if id == wanted));
    }
}
