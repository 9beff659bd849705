//! Names, texts, values, settings, answers and draws.
ghost use Rattle.std.specs.Prelude.{IsTrue, length, nat_eq};
ghost use Rattle.hex.specs.Hex.{IsBytes};
ghost use Rattle.report_limits.specs.meaning.Limits.{fits_answer, fits_draw, fits_line, fits_value};
ghost use Rattle.report_limits.specs.meaning.Reports.{settings_fit};
ghost use Rattle.report_text.specs.meaning.Octets.{AnswerOfBytes, DrawOfBytes, SettingsOfBytes, ValueOfBytes};
ghost use Rattle.svc_values.specs.meaning.Texts.{is_name};

use crate::kept::{Kept, bytes_kept, integer_kept, number_kept};
use svc_values::{Answer, Draw, Name, Octets, Settings, Text, Value};

/// A name is one.
pub(crate) fn name_kept(name: &Name)
    ensures { IsTrue (is_name name.now) }
{
    let _spelled = name.as_str();
}

/// At most 64 bytes.
fn octets_kept(octets: &Octets)
    ensures few { IsTrue (fits_line octets.now) }
    ensures bytes { IsBytes octets.now }
{
    bytes_kept(octets.as_slice());
}

impl Kept for Text {
    ghost fits = { fits_line };

    fn kept(&self) {
        let _text = self.as_str();
    }
}

impl Kept for Value {
    ghost fits = { fits_value };

    ghost octets = { ValueOfBytes };

    fn kept(&self) {
        match self {
            Value::Int(number) => integer_kept(*number),
            Value::Text(text) => text.kept(),
            Value::Bytes(octets) => octets_kept(octets),
        }
    }
}

impl Kept for Settings {
    ghost fits = { settings_fit };

    ghost octets = { SettingsOfBytes };

    #[tactic(auto, using(crate::proofs::Rising::settings_rise))]
    fn kept(&self) {
        for (name, value) in self.as_map() {
            name_kept(name);
            value.kept();
        }
    }
}

impl Kept for Answer {
    ghost fits = { fits_answer };

    ghost octets = { AnswerOfBytes };

    fn kept(&self) {
        match self {
            Answer::Done(count) => number_kept(*count),
            Answer::Rows(rows) => rows.kept(),
            Answer::Number(number) => integer_kept(*number),
            Answer::Committed
            | Answer::Conflict
            | Answer::RolledBack
            | Answer::CommitInReplay
            | Answer::Refused(_) => {}
        }
    }
}

/// The octets of an identifier value.
fn id_kept(id: &[u8; 16])
    ensures few { IsTrue (nat_eq (length id.now) 16) }
    ensures bytes { IsBytes id.now }
{
    bytes_kept(&id[..]);
}

impl Kept for Draw {
    ghost fits = { fits_draw };

    ghost octets = { DrawOfBytes };

    fn kept(&self) {
        match self {
            Draw::Seq { name, value } => {
                name_kept(name);
                integer_kept(*value);
            }
            Draw::Clock { tick } => number_kept(*tick),
            Draw::Id { id } => id_kept(id),
        }
    }
}
