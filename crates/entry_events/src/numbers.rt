//! How many entries of a session were stored by an event.
ghost use Rattle.std.specs.Prelude.{◌≡◌, ◌+◌, ◌≤◌, ◌++◌, ℕ, true, false, length, map, IfOk, OnOk};
ghost use Rattle.std.specs.List.Sorted.{IsPartitionPoint, IsSorted};
ghost use Rattle.std.specs.Ordering.{is_le, is_lt};
ghost use Rattle.svc_values.specs.declared.entry.SessionId.{SessionId as Id};
ghost use Rattle.run_clauses.specs.meaning.EntryEvents.{stored_before, stored_entries, stored_up_to};
ghost use Rattle.run_clauses.specs.meaning.Moments.{moments as moments_def};
ghost use Rattle.entry_events.specs.Commits.{all_stored};
ghost use Rattle.entry_events.specs.Numbering.{before as before_def, image_key, key_cmp, stored_key, until as until_def, up_to as up_to_def};
ghost use Rattle.report_moments.specs.Views.{moments_as};

use crate::stored::{StoredAt, stored_in};
use outage_schedule::Report;
use report_moments::Moment;
use std::alloc::Global;
use std::marker::Model;
use svc_values::{Entry, NoMemory, SessionId};

/// The session of an entry, by its two numbers, and when it was stored: 0 before the run, and else
/// the number behind its event.
type Key = (u64, u64, u128);

/// When the entries of each session were stored.
#[derive(Drop)]
pub struct Numbers {
    keys: Vec<Key>,
}

impl Model for Numbers {
    ghost use Rattle.std.specs.Prelude.{List, ℕ};
    ghost use Rattle.std.specs.List.Sorted.{IsSorted};
    ghost use Rattle.entry_events.specs.Numbering.{key_cmp};

    ghost Value = { List (ℕ × ℕ × ℕ) };

    ghost view = { λ s. s.keys.items };

    ghost invariant = { λ s. IsSorted key_cmp s.keys.items };
}

/// Puts the keys of entries that were there before the run last.
fn push_image(keys: &mut Vec<Key>, image: &[Entry]) -> Result<(), NoMemory>
    ensures { OnOk result (keys.new.items ≡ keys.old.items ++ map image_key image.now) }
{
    for entry in image {
        keys.push((entry.ltxid.incarnation, entry.ltxid.session, 0))?;
    }
    Ok(())
}

/// Puts the keys of entries of the run last.
fn push_stored(keys: &mut Vec<Key>, stored: &[StoredAt]) -> Result<(), NoMemory>
    ensures { OnOk result (keys.new.items
        ≡ keys.old.items ++ map stored_key (all_stored stored.now)) }
{
    for one in stored {
        let time = one.event as u128 + 1;
        keys.push((one.ltxid.incarnation, one.ltxid.session, time))?;
    }
    Ok(())
}

/// The keys of all entries.
fn keys_of(alloc: Global, image: &[Entry], stored: &[StoredAt]) -> Result<Vec<Key>, NoMemory>
    ensures { IfOk result (λ keys. keys.items
        ≡ map image_key image.now ++ map stored_key (all_stored stored.now)) }
{
    let mut keys = Vec::new(alloc);
    push_image(&mut keys, image)?;
    push_stored(&mut keys, stored)?;
    Ok(keys)
}

/// Whether a key comes before another.
fn is_before(key: &Key, limit: &Key) -> bool
    ensures { result ≡ is_lt (key_cmp key.now limit.now) }
{
    key.cmp(limit).is_lt()
}

/// Whether a key comes no later than another.
fn is_up_to(key: &Key, limit: &Key) -> bool
    ensures { result ≡ is_le (key_cmp key.now limit.now) }
{
    key.cmp(limit).is_le()
}

/// How many keys come before one.
fn count_before(keys: &[Key], limit: &Key) -> usize
    requires { IsSorted key_cmp keys.now }
    ensures point { IsPartitionPoint (λ key. is_lt (key_cmp key limit.now) ≡ true)
        (λ key. is_lt (key_cmp key limit.now) ≡ false) keys.now result }
    ensures within { result ≤ length keys.now }
{
    keys.partition_point(|key| is_before(key, limit))
}

/// How many keys come no later than one.
fn count_up_to(keys: &[Key], limit: &Key) -> usize
    requires { IsSorted key_cmp keys.now }
    ensures point { IsPartitionPoint (λ key. is_le (key_cmp key limit.now) ≡ true)
        (λ key. is_le (key_cmp key limit.now) ≡ false) keys.now result }
    ensures within { result ≤ length keys.now }
{
    keys.partition_point(|key| is_up_to(key, limit))
}

/// How many of these keys are of a session, with no later time.
fn count_until(keys: &[Key], session: &SessionId, time: u128) -> usize
    requires { IsSorted key_cmp keys.now }
    ensures is { result ≡ until_def keys.now session.now time }
    ensures within { result ≤ length keys.now }
{
    let from = count_before(keys, &(session.incarnation, session.session, 0));
    let to = count_up_to(keys, &(session.incarnation, session.session, time));
    to.saturating_sub(from)
}

impl Numbers {
    /// Those of an image's entries, and of the run of a report with these moments. For n entries it
    /// takes n log n, and for each commit that a crash stopped the entries besides.
    pub fn of(
        alloc: Global,
        image: &[Entry],
        report: &Report,
        moments: &[Moment<'_>],
    ) -> Result<Numbers, NoMemory>
        requires { moments_as moments.now ≡ moments_def report.now }
        ensures before { IfOk result (λ numbers. (session : Id) → (event : ℕ)
            → before_def numbers session event
            ≡ stored_before image.now (stored_entries report.now) session event) }
        ensures up_to { IfOk result (λ numbers. (session : Id) → (event : ℕ)
            → up_to_def numbers session event
            ≡ stored_up_to image.now (stored_entries report.now) session event) }
    {
        let stored = stored_in(alloc, report, moments)?;
        let mut keys = keys_of(alloc, image, stored.as_slice())?;
        keys.sort()?;
        Ok(Numbers { keys })
    }

    /// How many entries of the session were stored by a time.
    fn until(&self, session: &SessionId, time: u128) -> u64
        ensures { result ≡ until_def self.now session.now time }
    {
        count_until(self.keys.as_slice(), session, time) as u64
    }

    /// How many entries of the session were stored before an event: those of the image, and those
    /// of the run. It takes the logarithm of their number.
    pub fn before(&self, session: &SessionId, event: u64) -> u64
        ensures { result ≡ before_def self.now session.now event }
    {
        self.until(session, event as u128)
    }

    /// The same up to an event, its own entries included.
    pub fn up_to(&self, session: &SessionId, event: u64) -> u64
        ensures { result ≡ up_to_def self.now session.now event }
    {
        self.until(session, event as u128 + 1)
    }
}
