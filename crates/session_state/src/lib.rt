//! What a session remembers between calls: its settings.
#![tactic(auto)]

ghost use Rattle.std.specs.Prelude.{◌≡◌, [], OnOk, OnErr};
ghost use Rattle.std.specs.Option.{option_copied};
ghost use Rattle.svc_values.specs.meaning.SettingsList.{put_setting, setting_of};

use std::alloc::Global;
use svc_values::{Name, NoMemory, Settings, Value};

/// The state of a session: a value for each name that is set.
#[derive(Drop)]
pub struct SessionState {
    pub settings: Settings,
    alloc: Global,
}

impl SessionState {
    /// The state in which no name is set. It takes no memory.
    pub fn new(alloc: Global) -> SessionState
        ensures { result.settings ≡ [] }
    {
        SessionState {
            settings: Settings::new(alloc),
            alloc,
        }
    }

    /// Begins a request: the settings are the given ones, and those of before are dropped. It takes
    /// no memory.
    pub fn begin(&mut self, settings: Settings)
        ensures { self.new.settings ≡ settings }
    {
        self.settings = settings;
    }

    /// Sets the name, in the place of the value that it had, if any. The cost is logarithmic in the
    /// names that are set.
    pub fn set(&mut self, name: Name, value: Value) -> Result<(), NoMemory>
        ensures ok { OnOk result (self.new.settings ≡ put_setting self.old.settings name value) }
        ensures err { OnErr result (self.new ≡ self.old) }
    {
        self.settings.put(name, value)
    }

    /// The value of the name, and `None` exactly where it is not set. The cost is logarithmic in
    /// the names that are set.
    pub fn get(&self, name: &Name) -> Option<&Value>
        ensures { option_copied result ≡ setting_of self.now.settings name.now }
    {
        self.settings.get(name)
    }

    /// Ends a request: no name is set. It takes no memory.
    pub fn reset(&mut self)
        ensures { self.new.settings ≡ [] }
    {
        self.settings = Settings::new(self.alloc);
    }
}
