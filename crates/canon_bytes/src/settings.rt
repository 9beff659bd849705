//! Settings.
ghost use Rattle.std.specs.Prelude.{◌≡◌, ◌++◌, None, length, IfOk, OnOk};
ghost use Rattle.std.specs.List.{flat_map, AllByRecursion};
ghost use Rattle.svc_values.specs.SettingsList.{AreSettings, AllBelow};
ghost use Rattle.svc_values.specs.meaning.SettingsList.{last_name};
ghost use Rattle.canon_bytes.specs.meaning.SettingsBytes.{spell_setting, spell_settings, setting_at, settings_behind, settings_at};
ghost use Rattle.canon_bytes.specs.SettingsBytes.{FitsSetting, FitsSettings};
ghost use Rattle.canon_bytes.specs.Reading.{IsReading};
ghost use Rattle.canon_bytes.specs.SettingsAgain.{settings_again};

use crate::canon::{Put, Take};
use crate::fault::{Fault, ReadFault};
use std::alloc::Global;
use svc_values::{Name, NoMemory, Settings, Value};

/// A setting with a name above those so far.
#[tactic(auto, unfolding(crate::specs::meaning::SettingsBytes::setting_at))]
fn take_setting<'a>(
    alloc: Global,
    settings: &Settings,
    bytes: &'a [u8],
) -> Result<(Name, Value, &'a [u8]), ReadFault>
    ensures exact { IsReading (λ x. ((x.0, x.1), x.2.now)) result
        (setting_at (last_name settings.now) bytes.now) }
    ensures found { IfOk result (λ x. bytes.now ≡ spell_setting (x.0, x.1) ++ x.2.now) }
    ensures fitting { IfOk result (λ x. FitsSetting (x.0, x.1)) }
    ensures above { IfOk result (λ x. AllBelow settings.now x.0) }
{
    let (name, rest) = Name::take(alloc, bytes)?;
    if !settings.can_put_last(&name) {
        return Err(ReadFault::Fault(Fault::BadPart(bytes.len())));
    }
    let (value, rest) = Value::take(alloc, rest)?;
    Ok((name, value, rest))
}

/// That many settings, names rising.
fn take_rising(alloc: Global, count: u64, bytes: &[u8]) -> Result<(Settings, &[u8]), ReadFault>
    ensures exact { IsReading (λ x. (x.0, x.1.now)) result (settings_behind None count bytes.now) }
    ensures found { IfOk result (λ x. bytes.now ≡ flat_map spell_setting x.0 ++ x.1.now) }
    ensures fitting { IfOk result (λ x. AllByRecursion FitsSetting x.0) }
    ensures rising { IfOk result (λ x. AreSettings x.0) }
    ensures counted { IfOk result (λ x. length x.0 ≡ count) }
{
    let mut settings = Settings::new(alloc);
    let mut rest = bytes;
    for _ in 0..count {
        let (name, value, after) = take_setting(alloc, &settings, rest)?;
        settings.put_last(name, value)?;
        rest = after;
    }
    Ok((settings, rest))
}

/// Writes the settings in order, without their number.
fn put_each(settings: &Settings, out: &mut Vec<u8>) -> Result<(), NoMemory>
    ensures written { OnOk result (out.new.items ≡ out.old.items
        ++ flat_map spell_setting settings.now) }
    ensures fitting { OnOk result (AllByRecursion FitsSetting settings.now) }
    ensures rising { AreSettings settings.now }
{
    for (name, value) in settings.as_map() {
        name.put(out)?;
        value.put(out)?;
    }
    Ok(())
}

#[tactic(auto, unfolding(crate::specs::meaning::SettingsBytes::settings_at, crate::specs::meaning::Lists::spell_list))]
impl Take for Settings {
    ghost spelling = { spell_settings };

    ghost fits = { FitsSettings };

    ghost reading = { settings_at };

    ghost again = { settings_again };

    fn take(alloc: Global, bytes: &[u8]) -> Result<(Settings, &[u8]), ReadFault> {
        let (count, rest) = u64::take(alloc, bytes)?;
        take_rising(alloc, count, rest)
    }
}

#[tactic(auto, unfolding(crate::specs::meaning::Lists::spell_list))]
impl Put for Settings {
    fn put(&self, out: &mut Vec<u8>) -> Result<(), NoMemory> {
        (self.len() as u64).put(out)?;
        put_each(self, out)
    }
}
