//! Where a value stands twice among the entries of a report.
ghost use Rattle.std.specs.Prelude.{◌≡◌, ◌++◌, ◌∷◌, [], List, None, false, IfOk};
ghost use Rattle.std.specs.List.{flat_map};
ghost use Rattle.svc_values.specs.declared.draw.Draw.{Draw as Given};
ghost use Rattle.server_model.specs.meaning.Fresh.{draws_in};
ghost use Rattle.serial_check.specs.meaning.Places.{is_drawn_before, draws_again, fresh_pieces, fresh_entries, fresh_place};
ghost use Rattle.serial_check.specs.Given.{Keeps, single_of};

use crate::place;
use json_form::Pointer;
use outage_schedule::Report;
use std::alloc::Global;
use svc_values::{Draw, Entry, KeySet, Name, NoMemory, Piece};

/// A value that may stand once: one of a sequence, or an identifier.
#[derive(PartialEq, Eq, PartialOrd, Ord, Drop)]
pub(crate) enum Single {
    Seq { name: Name, value: i64 },
    Id { id: [u8; 16] },
}

/// What of a draw may stand once: nothing of the clock.
fn value_in(draw: &Draw) -> Option<Single>
    ensures { result ≡ single_of draw.now }
{
    match draw {
        Draw::Seq { name, value } => Some(Single::Seq {
            name: name.copied(),
            value: *value,
        }),
        Draw::Clock { .. } => None,
        Draw::Id { id } => Some(Single::Id { id: *id }),
    }
}

/// Keeps the value of a draw, and tells whether it stood there before.
fn comes_again(kept: &mut KeySet<Single>, draw: &Draw) -> Result<bool, NoMemory>
    ensures { IfOk result (λ again. (before : List Given) → Keeps kept.old before
        → (again ≡ is_drawn_before before draw.now) × Keeps kept.new (before ++ draw.now ∷ [])) }
{
    match value_in(draw) {
        None => Ok(false),
        Some(one) => {
            let again = kept.has(&one);
            kept.add(one)?;
            Ok(again)
        }
    }
}

/// Whether one of the draws of a piece stood there before. If not, they are kept.
fn one_again(kept: &mut KeySet<Single>, draws: &[Draw]) -> Result<bool, NoMemory>
    ensures { IfOk result (λ again. (before : List Given) → Keeps kept.old before
        → (again ≡ draws_again before draws.now)
        × (again ≡ false → Keeps kept.new (before ++ draws.now))) }
{
    for draw in draws {
        if comes_again(kept, draw)? {
            return Ok(true);
        }
    }
    Ok(false)
}

/// The first of the pieces of entry `n` in which a value comes again. If there is none, their draws
/// are kept.
fn failing_piece(
    alloc: Global,
    kept: &mut KeySet<Single>,
    n: usize,
    pieces: &[Piece],
) -> Result<Option<Pointer>, NoMemory>
    ensures { IfOk result (λ place. (before : List Given) → Keeps kept.old before
        → (place ≡ fresh_pieces before n 0 pieces.now)
        × (place ≡ None → Keeps kept.new (before ++ flat_map draws_in pieces.now))) }
{
    for (p, piece) in pieces.iter().enumerate() {
        if one_again(kept, piece.draws.as_slice())? {
            return Ok(Some(place::piece(alloc, n, p)?));
        }
    }
    Ok(None)
}

/// The first place in entries where a value comes again.
fn failing_entry(alloc: Global, entries: &[Entry]) -> Result<Option<Pointer>, NoMemory>
    ensures { IfOk result (λ place. place ≡ fresh_entries [] 0 entries.now) }
{
    let mut kept = KeySet::new(alloc);
    for (n, entry) in entries.iter().enumerate() {
        let place = failing_piece(alloc, &mut kept, n, entry.pieces.as_slice())?;
        if place.is_some() {
            return Ok(place);
        }
    }
    Ok(None)
}

/// The first piece of a report's entries in which a value of a sequence or an identifier stands
/// that stood before it, in an earlier piece or earlier in this one. There is none exactly where
/// the clause `Fresh` holds. n log n for n draws.
pub fn judge_fresh(alloc: Global, report: &Report) -> Result<Option<Pointer>, NoMemory>
    ensures { IfOk result (λ place. place ≡ fresh_place report.now) }
{
    failing_entry(alloc, report.entries.as_slice())
}
