//! What is the same as far as a report prints it.
ghost use Rattle.std.specs.Prelude.{◌≡◌, ◌≤◌, ◌++◌, length, take, drop};
ghost use Rattle.std.specs.Cmp.Lexicographic.{pointwise};
ghost use Rattle.svc_values.specs.meaning.Same.{same_bool as same_bool_def, same_call, same_answers, same_draws};
ghost use Rattle.run_clauses.specs.meaning.Comparing.{same_base as same_base_def, same_printed_rows};

use commit_log::{Base, BaseSequence, BaseTable};
use equality_laws::tests_equality;
use identifier_sets::is_same;
use svc_values::{Answers, Call, Column, Draws, Entry, Ltxid, Piece, Row, Text};

fn same_bool(one: bool, other: bool) -> bool
    ensures { result ≡ same_bool_def one other }
{
    if one { other } else { !other }
}

/// A test of sameness.
pub(crate) trait Alike {
    ghost use Rattle.std.specs.Prelude.{Bool};

    ghost same: { Self → Self → Bool };

    fn is_like(&self, other: &Self) -> bool
        ensures { result ≡ same self.now other.now };
}

impl Alike for Ltxid {
    ghost use Rattle.svc_values.specs.meaning.Identifiers.{same_ltxid};

    ghost same = { same_ltxid };

    fn is_like(&self, other: &Ltxid) -> bool {
        is_same(self, other)
    }
}

impl Alike for Text {
    ghost use Rattle.std.specs.Str.{bytes_eq};

    ghost same = { bytes_eq };

    fn is_like(&self, other: &Text) -> bool {
        *self == *other
    }
}

fn is_call(one: &Call, other: &Call) -> bool
    ensures { result ≡ same_call one.now other.now }
{
    tests_equality();
    *one == *other
}

fn are_answers(one: &Answers, other: &Answers) -> bool
    ensures { result ≡ same_answers one.now other.now }
{
    tests_equality();
    *one == *other
}

fn are_draws(one: &Draws, other: &Draws) -> bool
    ensures { result ≡ same_draws one.now other.now }
{
    tests_equality();
    *one == *other
}

impl Alike for Piece {
    ghost use Rattle.svc_values.specs.meaning.Same.{same_piece};

    ghost same = { same_piece };

    fn is_like(&self, other: &Piece) -> bool {
        is_call(&self.call, &other.call)
            && are_answers(&self.answers, &other.answers)
            && are_draws(&self.draws, &other.draws)
    }
}

impl Alike for Entry {
    ghost use Rattle.run_clauses.specs.meaning.Comparing.{same_entry};

    ghost same = { same_entry };

    fn is_like(&self, other: &Entry) -> bool {
        is_same(&self.ltxid, &other.ltxid)
            && same_bool(self.completed, other.completed)
            && self.settings == other.settings
            && are_like(self.pieces.as_slice(), other.pieces.as_slice())
    }
}

impl Alike for Column {
    ghost use Rattle.run_clauses.specs.meaning.Comparing.{same_column};

    ghost same = { same_column };

    fn is_like(&self, other: &Column) -> bool {
        self.name == other.name && self.kind == other.kind
    }
}

impl Alike for BaseTable {
    ghost use Rattle.run_clauses.specs.meaning.Comparing.{same_base_table};

    ghost same = { same_base_table };

    fn is_like(&self, other: &BaseTable) -> bool {
        self.schema.name == other.schema.name
            && are_like(
                self.schema.columns.as_slice(),
                other.schema.columns.as_slice(),
            )
            && are_rows(self.rows.as_slice(), other.rows.as_slice())
    }
}

impl Alike for BaseSequence {
    ghost use Rattle.run_clauses.specs.meaning.Comparing.{same_base_sequence};

    ghost same = { same_base_sequence };

    fn is_like(&self, other: &BaseSequence) -> bool {
        self.name == other.name && self.start == other.start && same_bool(self.keep, other.keep)
    }
}

/// Whether the two have the same rows.
fn are_rows(one: &[Row], other: &[Row]) -> bool
    ensures { result ≡ same_printed_rows one.now other.now }
{
    *one == *other
}

/// Whether the two are the same, one by one.
pub(crate) fn are_like<T: Alike>(one: &[T], other: &[T]) -> bool
    ensures { result ≡ pointwise T.same one.now other.now }
{
    for (at, here) in one.iter().enumerate() {
        let Some(there) = other.get(at) else {
            return false;
        };
        if !here.is_like(there) {
            return false;
        }
    }
    one.len() == other.len()
}

/// The first ones.
fn front<T>(all: &[T], count: usize) -> &[T]
    requires { count ≤ length all.now }
    ensures { result.now ≡ take count all.now }
{
    &all[..count]
}

/// Those from a place on.
fn behind<T>(all: &[T], from: usize) -> &[T]
    requires { from ≤ length all.now }
    ensures { result.now ≡ drop from all.now }
{
    &all[from..]
}

/// Whether they are the first ones, and behind them the others.
pub(crate) fn are_joined<T: Alike>(all: &[T], first: &[T], more: &[T]) -> bool
    ensures { result ≡ pointwise T.same all.now (first.now ++ more.now) }
{
    if all.len() < first.len() {
        return false;
    }
    let count = first.len();
    if !are_like(front(all, count), first) {
        return false;
    }
    are_like(behind(all, count), more)
}

/// Whether the two are one base.
pub(crate) fn are_one_base(one: &Base, other: &Base) -> bool
    ensures { result ≡ same_base_def one.now other.now }
{
    are_like(one.tables.as_slice(), other.tables.as_slice())
        && are_like(one.sequences.as_slice(), other.sequences.as_slice())
}
