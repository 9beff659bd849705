//! Moments of a report, in their order.
ghost use Rattle.std.specs.Prelude.{◌≡◌, ◌<◌, ◌≤◌, ◌+◌, ◌^◌, ◌++◌, IfOk, OnOk, IfSome, All, length, take, drop};
ghost use Rattle.std.specs.Option.{option_to_list};
ghost use Rattle.run_clauses.specs.meaning.Moments.{moment_of_note as note_def, moments_of_notes as notes_def, moment_of_item as item_def, before_event, from_event, in_order as in_order_def, moments as moments_def};
ghost use Rattle.report_moments.specs.Views.{moment_as, moments_as};
ghost use Rattle.report_moments.specs.Places.{IsPlaced};

use outage_schedule::{AskResult, Note, OutsideNote, Report, Served};
use std::alloc::Global;
use svc_values::{Ltxid, NoMemory};

/// What happened: an item was served, calls ran outside, or an outcome was asked for.
#[derive(Clone, Copy)]
pub enum What<'a> {
    Served(&'a Served),
    Outside(&'a OutsideNote),
    Asked { ltxid: Ltxid, told: AskResult },
}

/// A place of a report: the number of a note or of a served item, from 0.
#[derive(Clone, Copy)]
pub enum At {
    Note(usize),
    Served(usize),
}

/// What happened, the number of the event, and its place in the report.
#[derive(Clone, Copy)]
pub struct Moment<'a> {
    pub event: u64,
    pub at: At,
    pub what: What<'a>,
}

/// What the note of an event tells, where it is that of an `outside` or of an `ask`.
fn moment_of_note(at: usize, note: &Note) -> Option<Moment<'_>>
    requires { at < 2 ^ 63 }
    ensures told { moments_as (option_to_list result) ≡ note_def (at + 1) note.now }
    ensures event { IfSome result (λ moment. moment.event ≡ at + 1) }
    ensures place { IfSome result (λ moment. moment.at ≡ At.Note at) }
{
    let event = at as u64 + 1;
    match note {
        Note::Outside { ran: Some(ran) } => Some(Moment {
            event,
            at: At::Note(at),
            what: What::Outside(ran),
        }),
        Note::Ask {
            ltxid,
            told: Some(told),
        } => Some(Moment {
            event,
            at: At::Note(at),
            what: What::Asked {
                ltxid: *ltxid,
                told: *told,
            },
        }),
        _ => None,
    }
}

/// Puts the moment last, if there is one.
fn push_some<'a>(all: &mut Vec<Moment<'a>>, moment: Option<Moment<'a>>) -> Result<(), NoMemory>
    ensures { OnOk result (all.new.items ≡ all.old.items ++ option_to_list moment.entry) }
{
    if let Some(moment) = moment {
        all.push(moment)?;
    }
    Ok(())
}

/// What the notes tell, in their order.
fn moments_of_notes(alloc: Global, report: &Report) -> Result<Vec<Moment<'_>>, NoMemory>
    ensures told { IfOk result (λ all. moments_as all.items ≡ notes_def 1 report.now.notes) }
    ensures placed { IfOk result (λ all. All (IsPlaced report.now) all.items) }
{
    let notes = report.notes.as_slice();
    let mut all = Vec::new(alloc);
    for (at, note) in notes.iter().enumerate() {
        push_some(&mut all, moment_of_note(at, note))?;
    }
    Ok(all)
}

fn moment_of_item(at: usize, one: &Served) -> Moment<'_>
    ensures told { moment_as result ≡ item_def one.now }
    ensures place { result.at ≡ At.Served at }
{
    Moment {
        event: one.event,
        at: At::Served(at),
        what: What::Served(one),
    }
}

/// How many of these come before an event. Linear in their number.
fn count_before(notes: &[Moment<'_>], event: u64) -> usize
    ensures within { result ≤ length notes.now }
    ensures before { moments_as (take result notes.now)
        ≡ before_event event (moments_as notes.now) }
    ensures left { moments_as (drop result notes.now) ≡ from_event event (moments_as notes.now) }
{
    for (at, moment) in notes.iter().enumerate() {
        if moment.event >= event {
            return at;
        }
    }
    notes.len()
}

/// Those from a place on.
fn behind<'a, 'b>(notes: &'b [Moment<'a>], from: usize) -> &'b [Moment<'a>]
    requires { from ≤ length notes.now }
    ensures { result.now ≡ drop from notes.now }
{
    &notes[from..]
}

/// Puts those before an event last, and tells how many they are.
fn push_before<'a>(
    all: &mut Vec<Moment<'a>>,
    notes: &[Moment<'a>],
    event: u64,
) -> Result<usize, NoMemory>
    ensures within { IfOk result (λ count. count ≤ length notes.now) }
    ensures pushed { IfOk result (λ count.
        all.new.items ≡ all.old.items ++ take count notes.now) }
    ensures before { IfOk result (λ count.
        moments_as (take count notes.now) ≡ before_event event (moments_as notes.now)) }
    ensures left { IfOk result (λ count.
        moments_as (drop count notes.now) ≡ from_event event (moments_as notes.now)) }
{
    let count = count_before(notes, event);
    all.extend_from_slice(&notes[..count])?;
    Ok(count)
}

/// The items in their order, each after the notes of earlier events.
fn in_order<'a>(
    alloc: Global,
    report: &'a Report,
    notes: &[Moment<'a>],
) -> Result<Vec<Moment<'a>>, NoMemory>
    ensures told { IfOk result (λ all.
        moments_as all.items ≡ in_order_def report.now.served (moments_as notes.now)) }
    ensures placed { All (IsPlaced report.now) notes.now
        → IfOk result (λ all. All (IsPlaced report.now) all.items) }
{
    let items = report.served.as_slice();
    let mut all = Vec::new(alloc);
    let mut next = 0;
    for (at, one) in items.iter().enumerate() {
        let count = push_before(&mut all, behind(notes, next), one.event)?;
        all.push(moment_of_item(at, one))?;
        next += count;
    }
    all.extend_from_slice(behind(notes, next))?;
    Ok(all)
}

/// What happened at all events of a report, in their order, each with its place. Linear.
pub fn moments_of(alloc: Global, report: &Report) -> Result<Vec<Moment<'_>>, NoMemory>
    ensures told { IfOk result (λ all. moments_as all.items ≡ moments_def report.now) }
    ensures placed { IfOk result (λ all. All (IsPlaced report.now) all.items) }
{
    let notes = moments_of_notes(alloc, report)?;
    in_order(alloc, report, notes.as_slice())
}
