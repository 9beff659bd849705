//! Readers of draws.
ghost use Rattle.serde_json.specs.View.{view};
ghost use Rattle.json_form.specs.Faults.{Gives};
ghost use Rattle.answer_forms.specs.meaning.Draws.{seq_in, clock_in, id_in, draw_by as draw_by_def, draw_in, draws_in};

use crate::part::{IdReader, NUMBER};
use call_forms::{NameReader, list_ahead};
use json_form::{DocFault, Integer, Reader, fixed, head_from, list_from};
use serde_json::Value as Json;
use std::alloc::Global;
use svc_values::{Draw, Draws, Listed};

/// The word that a draw begins with.
#[derive(Clone, Copy, Debug, PartialEq, Eq)]
pub enum DrawWord {
    Seq,
    Clock,
    Id,
}

/// A value of a sequence.
#[tactic(auto, unfolding(crate::specs::meaning::Draws::seq_in), using(json_form::proofs::Offered::others_stay))]
fn seq_from(alloc: Global, value: Json) -> Result<Draw, DocFault>
    ensures { Gives result (seq_in (view value)) }
{
    let mut parts = fixed(alloc, value, 3)?;
    let name = parts.read(alloc, 1, &NameReader)?;
    let value = parts.read(alloc, 2, &Integer)?;
    Ok(Draw::Seq { name, value })
}

/// A time of the clock.
#[tactic(auto, unfolding(crate::specs::meaning::Draws::clock_in))]
fn clock_from(alloc: Global, value: Json) -> Result<Draw, DocFault>
    ensures { Gives result (clock_in (view value)) }
{
    let mut parts = fixed(alloc, value, 2)?;
    let tick = parts.read(alloc, 1, &NUMBER)?;
    Ok(Draw::Clock { tick })
}

/// A new identifier.
#[tactic(auto, unfolding(crate::specs::meaning::Draws::id_in))]
fn id_from(alloc: Global, value: Json) -> Result<Draw, DocFault>
    ensures { Gives result (id_in (view value)) }
{
    let mut parts = fixed(alloc, value, 2)?;
    let id = parts.read(alloc, 1, &IdReader)?;
    Ok(Draw::Id { id })
}

/// A draw, by the word that it begins with.
fn draw_by(alloc: Global, value: Json, word: DrawWord) -> Result<Draw, DocFault>
    ensures { Gives result (draw_by_def word (view value)) }
{
    match word {
        DrawWord::Seq => seq_from(alloc, value),
        DrawWord::Clock => clock_from(alloc, value),
        DrawWord::Id => id_from(alloc, value),
    }
}

const WORDS: [(&str, DrawWord); 3] = [
    ("seq", DrawWord::Seq),
    ("clock", DrawWord::Clock),
    ("id", DrawWord::Id),
];

/// Reads a draw, by its first word.
struct DrawReader;

impl Reader<Draw> for DrawReader {
    ghost reads = { λ s. draw_in };

    #[tactic(auto, unfolding(crate::specs::meaning::Draws::draw_in))]
    fn read(&self, alloc: Global, value: Json) -> Result<Draw, DocFault> {
        let word = head_from(alloc, &value, &WORDS)?;
        draw_by(alloc, value, word)
    }
}

/// Reads the draws of a call, in order.
pub struct DrawsReader;

impl Reader<Draws> for DrawsReader {
    ghost reads = { λ s. draws_in };

    fn read(&self, alloc: Global, value: Json) -> Result<Draws, DocFault> {
        let draws = list_from(alloc, value, &DrawReader)?;
        Ok(Listed::from_vec(draws))
    }

    fn ahead(&self, alloc: Global, tokens: &mut json::Reader<'_>, depth: usize) -> Option<Draws> {
        let draws = list_ahead(alloc, tokens, depth, &DrawReader)?;
        Some(Listed::from_vec(draws))
    }
}
