//! Readers of served items: each at the event of a note at which it may stand, their events rising.
ghost use Rattle.std.specs.Prelude.{◌≡◌, [], IfOk};
ghost use Rattle.serde_json.specs.View.{view, items_view};
ghost use Rattle.json_form.specs.Faults.{Gives, GivesBy};
ghost use Rattle.json_form.specs.meaning.Arrays.{each_after};
ghost use Rattle.json_form.specs.Arrays.{count_at, parts_at, taken_at};
ghost use Rattle.note_forms.specs.meaning.Items.{last_event, event_in, place_in, served_at as served_at_def, bare_in, begin_in, answered_in, blocked_in, told_in, refused_in, stopped_outcome_in, stopped_call_in, crashed_in, served_by as served_by_def, one_served, served_in};

use crate::items_ahead::one_ahead;
use crate::note::count_from;
use crate::told::{ToldReader, told_by};
use answer_forms::{
    AnswersReader, CALL, DrawsReader, KnownRows, LtxidReader, NUMBER, SessionReader,
    SettingsReader, if_count,
};
use json_form::{
    DocCode, DocFault, Flag, Parts, Reader, Whole, fixed, head_from, parts_from, within_item,
};
use outage_schedule::{Item, Note, Notes, Served, ServedItems};
use serde_json::Value as Json;
use std::alloc::Global;
use svc_values::{Listed, SessionId};
use told_reports::{ServedWord, fits_event};

/// Reads the event of an item of this word, behind an item at the last one.
#[derive(Clone, Copy)]
pub(crate) struct EventReader<'a> {
    pub(crate) notes: &'a [Note],
    pub(crate) word: ServedWord,
    pub(crate) last: u64,
}

impl Reader<u64> for EventReader<'_> {
    ghost reads = { λ s. event_in s.notes.now s.word s.last };

    fn read(&self, alloc: Global, value: Json) -> Result<u64, DocFault> {
        let event = NUMBER.read(alloc, value)?;
        if fits_event(self.notes, self.word, self.last, event) {
            Ok(event)
        } else {
            Err(DocFault::here(alloc, DocCode::Rule))
        }
    }
}

/// The event of an item, and its session.
#[derive(Clone, Copy)]
pub struct ServedAt {
    pub event: u64,
    pub session: SessionId,
}

/// The item at its event, with its session.
pub(crate) fn served_at(place: ServedAt, item: Item) -> Served
    ensures { result ≡ served_at_def place item }
{
    Served {
        event: place.event,
        session: place.session,
        item,
    }
}

/// Reads an item behind those before it, of which the last one stands at the event `last`, and at
/// an event of these notes. Known rows are held once.
#[derive(Clone, Copy)]
pub(crate) struct ServedReader<'a> {
    pub(crate) notes: &'a [Note],
    pub(crate) last: u64,
    pub(crate) known: &'a KnownRows,
}

impl ServedReader<'_> {
    /// The event and the session of an item of this word.
    #[tactic(auto, unfolding(crate::specs::meaning::Items::place_in), using(json_form::proofs::Offered::others_stay))]
    fn place(
        &self,
        alloc: Global,
        parts: &mut Parts,
        word: ServedWord,
    ) -> Result<ServedAt, DocFault>
        ensures read { Gives result
            (place_in self.now.notes.now word self.now.last (parts_at parts.old)) }
        ensures left { IfOk result (λ _.
            parts_at parts.new ≡ taken_at 2 (taken_at 1 (parts_at parts.old))) }
        ensures count { count_at parts.new ≡ count_at parts.old }
    {
        let ServedReader { notes, last, .. } = *self;
        let event = parts.read(alloc, 1, &EventReader { notes, word, last })?;
        let session = parts.read(alloc, 2, &SessionReader)?;
        Ok(ServedAt { event, session })
    }

    /// An item with nothing behind its session.
    #[tactic(auto, unfolding(crate::specs::meaning::Items::bare_in))]
    fn bare(
        &self,
        alloc: Global,
        value: Json,
        word: ServedWord,
        item: Item,
    ) -> Result<Served, DocFault>
        ensures { Gives result (bare_in self.now.notes.now self.now.last word item (view value)) }
    {
        let mut parts = fixed(alloc, value, 3)?;
        let place = self.place(alloc, &mut parts, word)?;
        Ok(served_at(place, item))
    }

    /// A Begin, with its settings.
    #[tactic(auto, unfolding(crate::specs::meaning::Items::begin_in), using(json_form::proofs::Offered::others_stay))]
    fn begin(&self, alloc: Global, value: Json) -> Result<Served, DocFault>
        ensures { Gives result (begin_in self.now.notes.now self.now.last (view value)) }
    {
        let mut parts = fixed(alloc, value, 4)?;
        let place = self.place(alloc, &mut parts, ServedWord::Begin)?;
        let settings = parts.read(alloc, 3, &SettingsReader)?;
        Ok(served_at(place, Item::Begin { settings }))
    }

    /// A call, with its answers and draws.
    #[tactic(auto, unfolding(crate::specs::meaning::Items::answered_in), using(json_form::proofs::Offered::others_stay))]
    fn answered(&self, alloc: Global, value: Json) -> Result<Served, DocFault>
        ensures { Gives result (answered_in self.now.notes.now self.now.last (view value)) }
    {
        let mut parts = fixed(alloc, value, 7)?;
        let place = self.place(alloc, &mut parts, ServedWord::Call)?;
        let replay = parts.read(alloc, 3, &Flag)?;
        let call = parts.read(alloc, 4, &CALL)?;
        let answers = parts.read(
            alloc,
            5,
            &AnswersReader {
                known: Some(self.known),
            },
        )?;
        let draws = parts.read(alloc, 6, &DrawsReader)?;
        let item = Item::Call {
            replay,
            call,
            answers,
            draws,
        };
        Ok(served_at(place, item))
    }

    /// A commit that was blocked.
    #[tactic(auto, unfolding(crate::specs::meaning::Items::blocked_in), using(json_form::proofs::Offered::others_stay))]
    fn blocked(&self, alloc: Global, value: Json) -> Result<Served, DocFault>
        ensures { Gives result (blocked_in self.now.notes.now self.now.last (view value)) }
    {
        let mut parts = fixed(alloc, value, 4)?;
        let place = self.place(alloc, &mut parts, ServedWord::Blocked)?;
        let call = parts.read(alloc, 3, &CALL)?;
        Ok(served_at(place, Item::Blocked { call }))
    }

    /// An outcome that was told: the word says how many items stand there.
    #[tactic(auto, unfolding(crate::specs::meaning::Items::told_in), using(json_form::proofs::Offered::others_stay, crate::proofs::Stays::told_stays))]
    fn told(&self, alloc: Global, value: Json) -> Result<Served, DocFault>
        ensures { Gives result (told_in self.now.notes.now self.now.last (view value)) }
    {
        let mut parts = parts_from(alloc, value)?;
        let place = self.place(alloc, &mut parts, ServedWord::Outcome)?;
        let ltxid = parts.read(alloc, 3, &LtxidReader)?;
        let word = parts.read(alloc, 4, &ToldReader)?;
        if_count(alloc, &parts, 5 + word.behind())?;
        let result = told_by(alloc, word, 5, &mut parts)?;
        Ok(served_at(place, Item::Outcome { ltxid, result }))
    }

    /// A frame that was refused, with the cause.
    #[tactic(auto, unfolding(crate::specs::meaning::Items::refused_in), using(json_form::proofs::Offered::others_stay))]
    fn refused(&self, alloc: Global, value: Json) -> Result<Served, DocFault>
        ensures { Gives result (refused_in self.now.notes.now self.now.last (view value)) }
    {
        let mut parts = fixed(alloc, value, 4)?;
        let place = self.place(alloc, &mut parts, ServedWord::Refused)?;
        let cause = parts.read(alloc, 3, &CauseReader)?;
        Ok(served_at(place, Item::Refused { cause }))
    }

    /// A question for an outcome that was stopped before its answer.
    #[tactic(auto, unfolding(crate::specs::meaning::Items::stopped_outcome_in), using(json_form::proofs::Offered::others_stay))]
    fn stopped_outcome(&self, alloc: Global, value: Json) -> Result<Served, DocFault>
        ensures { Gives result (stopped_outcome_in self.now.notes.now self.now.last (view value)) }
    {
        let mut parts = fixed(alloc, value, 4)?;
        let place = self.place(alloc, &mut parts, ServedWord::Crashed)?;
        let ltxid = parts.read(alloc, 3, &LtxidReader)?;
        Ok(served_at(place, Item::CrashedOutcome { ltxid }))
    }

    /// A call that was stopped before its answer.
    #[tactic(auto, unfolding(crate::specs::meaning::Items::stopped_call_in), using(json_form::proofs::Offered::others_stay))]
    fn stopped_call(&self, alloc: Global, value: Json) -> Result<Served, DocFault>
        ensures { Gives result (stopped_call_in self.now.notes.now self.now.last (view value)) }
    {
        let mut parts = fixed(alloc, value, 5)?;
        let place = self.place(alloc, &mut parts, ServedWord::Crashed)?;
        let replay = parts.read(alloc, 3, &Flag)?;
        let call = parts.read(alloc, 4, &CALL)?;
        Ok(served_at(place, Item::CrashedCall { replay, call }))
    }

    /// What a crash stopped: a question for an outcome, or a call.
    fn crashed(&self, alloc: Global, value: Json) -> Result<Served, DocFault>
        ensures { Gives result (crashed_in self.now.notes.now self.now.last (view value)) }
    {
        if count_from(alloc, &value)? == 4 {
            self.stopped_outcome(alloc, value)
        } else {
            self.stopped_call(alloc, value)
        }
    }

    /// An item, by the word that it begins with.
    fn by(&self, alloc: Global, value: Json, word: ServedWord) -> Result<Served, DocFault>
        ensures { Gives result (served_by_def self.now.notes.now self.now.last word (view value)) }
    {
        match word {
            ServedWord::Connect => self.bare(alloc, value, word, Item::Connect),
            ServedWord::Begin => self.begin(alloc, value),
            ServedWord::Call => self.answered(alloc, value),
            ServedWord::Blocked => self.blocked(alloc, value),
            ServedWord::Outcome => self.told(alloc, value),
            ServedWord::End => self.bare(alloc, value, word, Item::End),
            ServedWord::Close => self.bare(alloc, value, word, Item::Close),
            ServedWord::Refused => self.refused(alloc, value),
            ServedWord::Crashed => self.crashed(alloc, value),
        }
    }
}

/// Reads the cause of a refusal.
struct CauseReader;

impl Reader<u8> for CauseReader {
    ghost use Rattle.json_form.specs.meaning.Values.{whole_of};

    ghost reads = { λ s. whole_of 1 2 };

    fn read(&self, alloc: Global, value: Json) -> Result<u8, DocFault> {
        let cause = Whole::new(1, 2).read(alloc, value)?;
        Ok(cause as u8)
    }
}

const WORDS: [(&str, ServedWord); 9] = [
    ("connect", ServedWord::Connect),
    ("begin", ServedWord::Begin),
    ("call", ServedWord::Call),
    ("blocked", ServedWord::Blocked),
    ("outcome", ServedWord::Outcome),
    ("end", ServedWord::End),
    ("close", ServedWord::Close),
    ("refused", ServedWord::Refused),
    ("crashed", ServedWord::Crashed),
];

impl Reader<Served> for ServedReader<'_> {
    ghost reads = { λ s. one_served s.notes.now s.last };

    #[tactic(auto, unfolding(crate::specs::meaning::Items::one_served))]
    fn read(&self, alloc: Global, value: Json) -> Result<Served, DocFault> {
        let word = head_from(alloc, &value, &WORDS)?;
        self.by(alloc, value, word)
    }

    fn ahead(&self, alloc: Global, tokens: &mut json::Reader<'_>, depth: usize) -> Option<Served> {
        one_ahead(alloc, self, tokens, depth)
    }
}

/// The items that these values say, in order, each behind the event of the one before.
#[tactic(auto, using(crate::proofs::Stays::last_pushed))]
fn each_served(
    alloc: Global,
    notes: &[Note],
    known: &KnownRows,
    values: Vec<Json>,
) -> Result<Vec<Served>, DocFault>
    ensures { GivesBy (λ v. v.items) result
        (each_after (λ before. one_served notes.now (last_event before)) []
        (items_view values.items)) }
{
    let mut found = Vec::with_capacity(alloc, values.len())?;
    let mut last = 0;
    for value in values {
        let reader = ServedReader { notes, last, known };
        let served = within_item(alloc, found.len(), reader.read(alloc, value))?;
        last = served.event;
        found.push(served)?;
    }
    Ok(found)
}

/// Reads what all sessions served, in order, beside these notes.
#[derive(Clone, Copy)]
pub struct ItemsReader<'a> {
    pub notes: &'a Notes,
    pub known: &'a KnownRows,
}

impl Reader<ServedItems> for ItemsReader<'_> {
    ghost reads = { λ s. served_in s.notes.now };

    fn read(&self, alloc: Global, value: Json) -> Result<ServedItems, DocFault> {
        let values = parts_from(alloc, value)?;
        let served = each_served(alloc, self.notes.as_slice(), self.known, values.items)?;
        Ok(Listed::from_vec(served))
    }
}
