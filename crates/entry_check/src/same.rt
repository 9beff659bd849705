//! Whether each transaction stands in the journal as its client knows it.
ghost use Rattle.std.specs.Prelude.{◌≡◌, ◌<◌, IfOk, IfSome, OnOk, None, drop, is_none, length, position, take, true, false};
ghost use Rattle.std.specs.List.{last_or, list_all};
ghost use Rattle.std.specs.Option.{option_copied, option_map_or};
ghost use Rattle.svc_values.specs.meaning.SettingsList.{with_sets};
ghost use Rattle.doc_reader.specs.Keeping.{IsDocument};
ghost use Rattle.run_clauses.specs.meaning.Once.{entries_in, once as once_def};
ghost use Rattle.run_clauses.specs.meaning.Same.{are_same_copies, is_any, is_same, is_same_request, same as same_def, unshown as unshown_def};
ghost use Rattle.entry_check.specs.InnerGranting.{keeps};
ghost use Rattle.entry_check.specs.Once.{is_end as is_end_def};

use crate::copies::{CopiesFault, JudgesCopies, fault_of_scripts};
use crate::granting::Granting;
use crate::known::{Difference, Known};
use crate::place::{Part, pointer_to};
use crate::stored::Stored;
use crate::tried::is_end;
use before_run::journal_before;
use json_form::Pointer;
use outage_schedule::{Document, Ltxids, Report, Request, RequestReport, ShownCall};
use std::alloc::Global;
use svc_values::{Call, Ltxid, NoMemory, Settings, TryCopy};

/// The place of the first call that ended its transaction.
fn first_end(shown: &[ShownCall]) -> Option<usize>
    ensures place { result ≡ position is_end_def shown.now }
    ensures within { IfSome result (λ at. at < length shown.now) }
{
    shown.iter().position(|call| is_end(call))
}

/// The last list.
fn last_of(lists: &[Ltxids]) -> Option<&Ltxids>
    ensures { option_copied result ≡ last_or None lists.now }
{
    lists.last()
}

/// Whether the last list has an identifier.
fn ends_with_any(lists: &[Ltxids]) -> bool
    ensures { result ≡ option_map_or is_any (last_or None lists.now) false }
{
    match last_of(lists) {
        Some(ids) => !ids.is_empty(),
        None => false,
    }
}

/// How many calls of a request count as submitted and not shown.
fn unshown(copy: &RequestReport) -> usize
    ensures { result ≡ unshown_def copy.now }
{
    if copy.failed.is_some() && ends_with_any(copy.tried.as_slice()) {
        return 1;
    }
    0
}

/// The calls behind the first ones, so many of them as there are.
fn calls_behind(calls: &[Call], count: usize) -> &[Call]
    ensures { result.now ≡ drop count calls.now }
{
    if count < calls.len() {
        return &calls[count..];
    }
    &[]
}

/// The first calls, so many of them as there are.
fn first_calls(calls: &[Call], count: usize) -> &[Call]
    ensures { result.now ≡ take count calls.now }
{
    if count < calls.len() {
        return &calls[..count];
    }
    calls
}

/// Puts what the calls set into the settings.
fn put_sets(alloc: Global, settings: &mut Settings, calls: &[Call]) -> Result<(), NoMemory>
    ensures { OnOk result (settings.new ≡ with_sets settings.old calls.now) }
{
    for call in calls {
        if let Call::Set { name, value } = call {
            settings.put(name.copied(), value.copy(alloc)?)?;
        }
    }
    Ok(())
}

/// All transactions of a request are there as its client knows them.
#[derive(Drop)]
struct AreSame<'a> {
    granting: Granting<'a>,
    stored: Stored<'a>,
}

impl AreSame<'_> {
    /// The first difference of a transaction, of which these identifiers were tried.
    fn of_transaction(&self, known: &Known<'_>, ids: &[Ltxid]) -> Option<Difference>
        ensures { is_none result ≡ list_all
            (is_same (keeps self.now.granting.kinds self.now.granting.sequences.now)
            known.now.settings.now known.now.calls.now known.now.shown.now)
            (entries_in self.now.stored ids.now) }
    {
        for ltxid in ids {
            if let Some(found) = self.stored.find(ltxid) {
                let difference = known.difference(&self.granting, &found);
                if difference.is_some() {
                    return difference;
                }
            }
        }
        None
    }

    /// The first difference of a request that was shown so.
    fn of_request(
        &self,
        alloc: Global,
        request: &Request,
        copy: &RequestReport,
    ) -> Result<Option<Difference>, NoMemory>
        ensures { IfOk result (λ found.
            is_none found ≡ is_same_request
            (keeps self.now.granting.kinds self.now.granting.sequences.now) self.now.stored
            request.now copy.now) }
    {
        let more = unshown(copy);
        let script = request.calls.as_slice();
        let all = copy.calls.as_slice();
        let mut settings = request.settings.copy(alloc)?;
        let mut from = 0;
        for ids in copy.tried.as_slice() {
            let ids = ids.as_slice();
            let left = calls_behind(script, from);
            let shown = &all[from..];
            let Some(end) = first_end(shown) else {
                let calls = first_calls(left, shown.len() + more);
                let known = Known {
                    settings: &settings,
                    calls,
                    shown,
                    from,
                };
                return Ok(self.of_transaction(&known, ids));
            };
            let count = end + 1;
            let calls = first_calls(left, count);
            let known = Known {
                settings: &settings,
                calls,
                shown: &shown[..count],
                from,
            };
            let difference = self.of_transaction(&known, ids);
            if difference.is_some() {
                return Ok(difference);
            }
            put_sets(alloc, &mut settings, calls)?;
            from += count;
        }
        Ok(None)
    }
}

/// A difference of the copy at a place.
fn fault_at(copy: usize, difference: Difference) -> CopiesFault {
    match difference {
        Difference::Call(at) => CopiesFault::Copy {
            copy,
            part: Part::Call(at),
        },
        Difference::Entry(at) => CopiesFault::Entry(at),
    }
}

impl JudgesCopies for AreSame<'_> {
    ghost test = { λ s. are_same_copies (keeps s.granting.kinds s.granting.sequences.now)
        s.stored };

    fn fault(
        &self,
        alloc: Global,
        request: &Request,
        copies: &[RequestReport],
    ) -> Result<Option<CopiesFault>, NoMemory> {
        for (at, copy) in copies.iter().enumerate() {
            if let Some(difference) = self.of_request(alloc, request, copy)? {
                return Ok(Some(fault_at(at, difference)));
            }
        }
        Ok(None)
    }
}

/// Judges `Same` of a report of a document, where `Once` holds: `None` exactly where each
/// transaction stands in the journal with the calls, answers, granted draws and settings that its
/// client knows. Else it is the place of the first one that does not, in the order of the report:
/// its entry where calls differ, else the call that was shown other answers or other granted draws,
/// and else its entry where settings differ. m log m for a report of size m, beside the reading of
/// what stood before event 1.
pub fn judge_same(
    alloc: Global,
    document: &Document,
    report: &Report,
) -> Result<Option<Pointer>, NoMemory>
    requires document { IsDocument document.now }
    requires once { once_def document.now report.now ≡ true }
    ensures { IfOk result (λ place. is_none place ≡ same_def document.now report.now) }
{
    let journal = journal_before(alloc, document)?;
    let judge = AreSame {
        granting: Granting {
            kinds: document.service.keep,
            sequences: journal.base.sequences.as_slice(),
        },
        stored: Stored::new(alloc, report.entries.as_slice())?,
    };
    let scripts = document.clients.as_slice();
    let place = fault_of_scripts(alloc, &judge, scripts, report.clients.as_slice())?;
    pointer_to(alloc, place)
}
