//! Records that are added to a log.
ghost use Rattle.std.specs.Prelude.{◌≡◌, Bool, OnOk, IsErrOf};
ghost use Rattle.disk_model.specs.Disk.{Meanwhile, Lowers, Caused};
ghost use Rattle.redo_store.specs.meaning.Records.{records_of};
ghost use Rattle.redo_store.specs.Redo.{CanAppend, StoreGoesOn, tail_of};
ghost use Rattle.redo_store.specs.Walk.{KeepsFront};
ghost use Rattle.svc_values.specs.Identifiers.{IsLtxid};
ghost use Rattle.canon_bytes.specs.Entries.{IsMadeEntry};
ghost use Rattle.commit_log.specs.declared.records.Record.TheVariants as kept;
ghost use Rattle.commit_log.specs.RecordBytes.{IsMadeRecord};
ghost use Rattle.commit_log.specs.Adding.{record_in, HasAlso, IsOldOrWith};
ghost use Rattle.commit_log.specs.Adds.{MayAddTo, MayAdd, AddsTo, Adds};

use crate::log::Log;
use crate::records::{Adding, made_of};
use disk_model::Disk;
use redo_store::RedoFault as LogFault;
use svc_values::{Entry, Ltxid, Name, Text};

impl Log {
    ghost use Rattle.commit_log.specs.Logs.{CanAdd, HasBegun, CanLog};

    /// Adds a committed transaction, in four device calls.
    ///
    /// It takes the memory for the record before the first of them, in proportion to the entry
    /// alone. The caller sees to it that the commit may come next in the journal of the disk.
    pub fn commit<D: Disk>(&mut self, disk: &mut D, entry: &Entry) -> Result<(), LogFault>
        requires ready { CanLog self.old (D.state disk.old) }
        requires made { IsMadeEntry entry.now }
        requires may { MayAdd (D.state disk.old) (kept.Commit entry.now) }
        ensures { Adds result self.new (D.state disk.old) (D.state disk.new)
            (kept.Commit entry.now) }
    {
        self.add(disk, Adding::Commit(entry))
    }

    /// Adds the block of an identifier, which can commit no more, in four device calls.
    ///
    /// It takes the memory for the record before the first of them, 33 bytes. The caller sees to it
    /// that the identifier may be blocked next in the journal of the disk.
    pub fn block<D: Disk>(&mut self, disk: &mut D, x: &Ltxid) -> Result<(), LogFault>
        requires ready { CanLog self.old (D.state disk.old) }
        requires made { IsLtxid x.now }
        requires may { MayAdd (D.state disk.old) (kept.Blocked x.now) }
        ensures { Adds result self.new (D.state disk.old) (D.state disk.new) (kept.Blocked x.now) }
    {
        self.add(disk, Adding::Blocked(x))
    }

    /// Adds a reservation of a sequence, whose values up to and with `upto` are set aside, in four
    /// device calls.
    ///
    /// It takes the memory for the record before the first of them, in proportion to the name
    /// alone. The caller sees to it that the reservation may come next in the journal of the disk.
    pub fn reserve<D: Disk>(&mut self, disk: &mut D, name: &Name, upto: i64) -> Result<(), LogFault>
        requires ready { CanLog self.old (D.state disk.old) }
        requires may { MayAdd (D.state disk.old)
            (kept.Reserved (record { name = name.now; upto = upto })) }
        ensures { Adds result self.new (D.state disk.old) (D.state disk.new)
            (kept.Reserved (record { name = name.now; upto = upto })) }
    {
        self.add(disk, Adding::Reserved(name, upto))
    }

    /// Adds a line of text, in four device calls.
    ///
    /// It takes the memory for the record before the first of them, in proportion to the line
    /// alone.
    pub fn alert<D: Disk>(&mut self, disk: &mut D, line: &Text) -> Result<(), LogFault>
        requires ready { CanLog self.old (D.state disk.old) }
        requires may { MayAdd (D.state disk.old) (kept.Alert line.now) }
        ensures { Adds result self.new (D.state disk.old) (D.state disk.new) (kept.Alert line.now) }
    {
        self.add(disk, Adding::Alert(line))
    }

    /// Adds a horizon, in four device calls: the sessions of incarnations below it are forgotten
    /// for good. The store need not have been opened before.
    ///
    /// It takes the memory for the record before the first of them, 17 bytes. The caller sees to it
    /// that the horizon may come next in the journal of the disk.
    pub fn forget<D: Disk>(&mut self, disk: &mut D, horizon: u64) -> Result<(), LogFault>
        requires { CanAdd self.old (D.state disk.old) }
        ensures { (is_opened has_horizon : Bool)
            → HasBegun is_opened has_horizon self.old (D.state disk.old)
            → MayAddTo is_opened has_horizon (D.state disk.old) (kept.Horizon horizon)
            → AddsTo is_opened has_horizon result self.new (D.state disk.old) (D.state disk.new)
            (kept.Horizon horizon) }
    {
        self.extend(disk, Adding::Horizon(horizon))
    }

    /// Adds an opening with this incarnation, in four device calls. The store need not have been
    /// opened before.
    ///
    /// It takes the memory for the record before the first of them, 17 bytes. The caller sees to it
    /// that the opening may come next in the journal of the disk.
    pub fn begin<D: Disk>(&mut self, disk: &mut D, incarnation: u64) -> Result<(), LogFault>
        requires { CanAdd self.old (D.state disk.old) }
        ensures { (is_opened has_horizon : Bool)
            → HasBegun is_opened has_horizon self.old (D.state disk.old)
            → MayAddTo is_opened has_horizon (D.state disk.old) (kept.Opened incarnation)
            → AddsTo is_opened has_horizon result self.new (D.state disk.old) (D.state disk.new)
            (kept.Opened incarnation) }
    {
        self.extend(disk, Adding::Opened(incarnation))
    }

    // Adds a record that may come next in a store that was opened.
    fn add<D: Disk>(&mut self, disk: &mut D, adding: Adding) -> Result<(), LogFault>
        requires ready { CanLog self.old (D.state disk.old) }
        requires made { IsMadeRecord (record_in adding) }
        requires may { MayAdd (D.state disk.old) (record_in adding) }
        ensures { Adds result self.new (D.state disk.old) (D.state disk.new)
            (record_in adding.entry) }
    {
        self.extend(disk, adding)
    }

    // Adds a record. What it says is said of one that may come next in the journal of the disk, in
    // which the store was opened or not, and has a horizon or not.
    pub(crate) fn extend<D: Disk>(&mut self, disk: &mut D, adding: Adding) -> Result<(), LogFault>
        requires ready { CanAppend self.old.redo (D.state disk.old) }
        requires made { IsMadeRecord (record_in adding) }
        ensures { (is_opened has_horizon : Bool)
            → HasBegun is_opened has_horizon self.old (D.state disk.old)
            → MayAddTo is_opened has_horizon (D.state disk.old) (record_in adding.entry)
            → AddsTo is_opened has_horizon result self.new (D.state disk.old) (D.state disk.new)
            (record_in adding.entry) }
    {
        self.put(disk, adding)
    }

    // Adds a record, whichever it is.
    fn put<D: Disk>(&mut self, disk: &mut D, adding: Adding) -> Result<(), LogFault>
        requires ready { CanAppend self.old.redo (D.state disk.old) }
        requires made { IsMadeRecord (record_in adding) }
        ensures added { OnOk result (HasAlso (D.state disk.old).now.seen (record_in adding.entry)
            (D.state disk.new).now.seen) }
        ensures refused { IsErrOf result LogFault.NoMemory
            → records_of (D.state disk.new).now.seen ≡ records_of (D.state disk.old).now.seen }
        ensures any_moment { Meanwhile (D.state disk.old) (D.state disk.new)
            (IsOldOrWith (D.state disk.old).now.seen (record_in adding.entry)) }
        ensures front { Meanwhile (D.state disk.old) (D.state disk.new)
            (KeepsFront (tail_of self.old.redo) (D.state disk.old).now.seen) }
        ensures goes_on { StoreGoesOn result self.old.redo self.new.redo (D.state disk.new) }
        ensures stop { Lowers 4 result (D.state disk.old).stop (D.state disk.new).stop }
        ensures cause { Caused (IsErrOf result LogFault.Stopped) (D.state disk.old)
            (D.state disk.new) }
    {
        let Ok(made) = made_of(self.alloc, adding) else {
            return Err(LogFault::NoMemory);
        };
        self.redo.append_made(disk, made)
    }
}
