//! Draws that a call brings, of which the service keeps some.
ghost use Rattle.std.specs.Prelude.{◌≡◌, ◌<◌, ◌&&◌, ◌++◌, [], IfOk, IfSome, OnOk, filter, if◌then◌else◌, length, map, position};
ghost use Rattle.std.specs.List.{list_any};
ghost use Rattle.std.specs.Option.{option_copied};
ghost use Rattle.std.specs.Str.{bytes_eq};
ghost use Rattle.mutable_values.specs.meaning.Granting.{is_granted as is_granted_def};
ghost use Rattle.server_model.specs.meaning.Core.{sequence_at};
ghost use Rattle.server_model.specs.meaning.NewValues.{left_by, of_one_kind, origin_of};
ghost use Rattle.legal_draws.specs.Origins.{of_sequence, origin_with};

use crate::sequence::Sequence;
use mutable_values::Grants;
use std::alloc::Global;
use std::marker::Model;
use svc_values::{Draw, Name, NoMemory};

/// The draws that are left of those that a call brings, in order.
#[derive(Drop)]
pub struct Kept<'a> {
    draws: Vec<&'a Draw>,
}

impl<'a> Model for Kept<'a> {
    ghost use Rattle.std.specs.Prelude.{List, map};
    ghost use Rattle.svc_values.specs.declared.draw.Draw.{Draw as One};

    ghost Value = { List One };

    ghost view = { λ k. map (λ one. one.now) k.draws.items };
}

/// Whether a sequence of this name is there, and its values are kept.
fn is_kept(sequences: &[Sequence], name: &Name) -> bool
    ensures { result ≡ list_any (λ sequence. bytes_eq sequence.name name.now && sequence.keep)
        sequences.now }
{
    sequences.iter().any(|sequence| sequence.keeps(name))
}

/// Whether the service keeps the draw.
#[tactic(auto, using(crate::proofs::Firsts::is_kept_sequence_at))]
fn is_granted(grants: Grants, sequences: &[Sequence], draw: &Draw) -> bool
    ensures { result ≡ is_granted_def grants (map sequence_at sequences.now) draw.now }
{
    match draw {
        Draw::Seq { name, .. } => grants.seq && is_kept(sequences, name),
        Draw::Clock { .. } => grants.clock,
        Draw::Id { .. } => grants.id,
    }
}

/// Puts those of the draws that the service keeps last.
fn put_granted<'a>(
    granted: &mut Vec<&'a Draw>,
    grants: Grants,
    sequences: &[Sequence],
    draws: &'a [Draw],
) -> Result<(), NoMemory>
    ensures { OnOk result (map (λ one. one.now) granted.new.items
        ≡ map (λ one. one.now) granted.old.items
        ++ filter (is_granted_def grants (map sequence_at sequences.now)) draws.now) }
{
    for draw in draws {
        if is_granted(grants, sequences, draw) {
            granted.push(draw)?;
        }
    }
    Ok(())
}

/// Of the draws that a call brings those that the service keeps for a replay: none without the
/// replay mark. Linear, and for each draw of a sequence in the number of sequences.
pub fn granted<'a>(
    alloc: Global,
    grants: Grants,
    sequences: &[Sequence],
    replay: bool,
    draws: &'a [Draw],
) -> Result<Kept<'a>, NoMemory>
    ensures { IfOk result (λ kept. kept ≡ (if replay
        then filter (is_granted_def grants (map sequence_at sequences.now)) draws.now else [])) }
{
    let mut granted = Vec::new(alloc);
    if !replay {
        return Ok(Kept { draws: granted });
    }
    put_granted(&mut granted, grants, sequences, draws)?;
    Ok(Kept { draws: granted })
}

/// Whether it is a value of the sequence of this name.
fn is_value_of(draw: &Draw, name: &Name) -> bool
    ensures { result ≡ of_sequence name.now draw.now }
{
    match draw {
        Draw::Seq { name: other, .. } => *name == *other,
        Draw::Clock { .. } | Draw::Id { .. } => false,
    }
}

/// Whether two draws are of one kind, and for sequences of one name.
fn are_of_one_kind(left: &Draw, right: &Draw) -> bool
    ensures { result ≡ of_one_kind left.now right.now }
{
    match left {
        Draw::Seq { name, .. } => is_value_of(right, name),
        Draw::Clock { .. } => matches!(right, Draw::Clock { .. }),
        Draw::Id { .. } => matches!(right, Draw::Id { .. }),
    }
}

/// The place of the first draw of the kind of this one.
fn place_of(draws: &[&Draw], given: &Draw) -> Option<usize>
    ensures place { result ≡ position (λ one. of_one_kind one.now given.now) draws.now }
    ensures within { IfSome result (λ at. at < length draws.now) }
{
    draws.iter().position(|one| are_of_one_kind(one, given))
}

impl<'a> Kept<'a> {
    /// The first of the draws of the kind of this one, taken out. Linear.
    pub(crate) fn take(&mut self, given: &Draw) -> Option<&'a Draw>
        ensures taken { origin_of given.now self.old ≡ origin_with (option_copied result) self.new }
        ensures left { self.new ≡ left_by (origin_of given.now self.old) self.old }
    {
        let at = place_of(self.draws.as_slice(), given)?;
        Some(self.draws.remove(at))
    }
}
