//! Identifiers, sessions and settings.
ghost use Rattle.std.specs.Prelude.{◌≡◌, ◌++◌, OnOk};
ghost use Rattle.std.specs.List.{flat_map};
ghost use Rattle.json_form.specs.Tokens.{tokens_of};
ghost use Rattle.json_form.specs.meaning.Writing.{list_by};
ghost use Rattle.report_text.specs.meaning.Values.{identifier_value, session_value, setting_value, settings_value};

use crate::value::ValueWriter;
use json_form::{TextWriter, Writer};
use outage_schedule::Ltxids;
use std::alloc::{AllocError, Global};
use svc_values::{Ltxid, Name, SessionId, Settings, Value};

pub(crate) struct LtxidWriter;

impl Writer<Ltxid> for LtxidWriter {
    ghost writes = { λ s. identifier_value };

    fn write(&self, _alloc: Global, item: &Ltxid, out: &mut TextWriter) -> Result<(), AllocError> {
        out.begin_array()?;
        out.whole(item.incarnation)?;
        out.whole(item.session)?;
        out.whole(item.number)?;
        out.end_array()
    }
}

pub(crate) struct LtxidsWriter;

impl Writer<Ltxids> for LtxidsWriter {
    ghost writes = { λ s. list_by identifier_value };

    fn write(&self, alloc: Global, item: &Ltxids, out: &mut TextWriter) -> Result<(), AllocError> {
        out.array_of(alloc, item.as_slice(), &LtxidWriter)
    }
}

pub(crate) struct SessionWriter;

impl Writer<SessionId> for SessionWriter {
    ghost writes = { λ s. session_value };

    fn write(
        &self,
        _alloc: Global,
        item: &SessionId,
        out: &mut TextWriter,
    ) -> Result<(), AllocError> {
        out.begin_array()?;
        out.whole(item.incarnation)?;
        out.whole(item.session)?;
        out.end_array()
    }
}

/// One setting: its name and its value.
fn setting_written(
    alloc: Global,
    name: &Name,
    value: &Value,
    out: &mut TextWriter,
) -> Result<(), AllocError>
    ensures { OnOk result (out.new ≡ out.old ++ tokens_of (setting_value (name.now, value.now))) }
{
    out.begin_array()?;
    out.text(name.as_str())?;
    ValueWriter.write(alloc, value, out)?;
    out.end_array()
}

/// Each setting, with no bracket around them.
fn each_setting(alloc: Global, settings: &Settings, out: &mut TextWriter) -> Result<(), AllocError>
    ensures { OnOk result
        (out.new ≡ out.old ++ flat_map (λ pair. tokens_of (setting_value pair)) settings.now) }
{
    for (name, value) in settings.as_map() {
        setting_written(alloc, name, value, out)?;
    }
    Ok(())
}

/// In order of name.
pub(crate) fn settings_written(
    alloc: Global,
    settings: &Settings,
    out: &mut TextWriter,
) -> Result<(), AllocError>
    ensures { OnOk result (out.new ≡ out.old ++ tokens_of (settings_value settings.now)) }
{
    out.begin_array()?;
    each_setting(alloc, settings, out)?;
    out.end_array()
}
