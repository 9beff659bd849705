//! The submissions of all clients, and whether they are those of the script.
ghost use Rattle.std.specs.Prelude.{◌≡◌, ◌&&◌, is_none, length, map, IfOk};
ghost use Rattle.std.specs.List.{flat_map, list_all};
ghost use Rattle.run_clauses.specs.meaning.Copies.{are_in_script_order, copies_by_client};
ghost use Rattle.shown_clauses.specs.meaning.Submissions.{submissions_of as submissions_of_def};
ghost use Rattle.report_parts.specs.SubmissionViews.{submission_as};
ghost use Rattle.whole_check.specs.Judging.{shows_own};
ghost use Rattle.whole_check.specs.Views.{submissions_as};

use crate::place::Place;
use outage_schedule::{Client, Transcript};
use report_parts::{Submission, Submissions, submissions_of};
use std::alloc::Global;
use svc_values::NoMemory;

/// The submissions of each client.
pub(crate) fn submissions_by_client<'a>(
    alloc: Global,
    clients: &'a [Client],
    transcripts: &'a [Transcript],
) -> Result<Vec<Submissions<'a>>, NoMemory>
    requires { length clients.now ≡ length transcripts.now }
    ensures all { IfOk result (λ made. map submissions_as made.items
        ≡ map (flat_map submissions_of_def) (copies_by_client clients.now transcripts.now)) }
    ensures order { IfOk result (λ made. list_all (λ one. one.is_in_order) made.items
        ≡ are_in_script_order clients.now transcripts.now) }
{
    let mut all = Vec::new(alloc);
    for (at, client) in clients.iter().enumerate() {
        let script = client.requests.as_slice();
        let made = submissions_of(alloc, script, transcripts[at].as_slice())?;
        all.push(made)?;
    }
    Ok(all)
}

/// The first client whose reports are not the copies of its requests, in the order of the script.
fn first_disordered(all: &[Submissions<'_>]) -> Option<usize>
    ensures { is_none result ≡ list_all (λ one. one.is_in_order) all.now }
{
    for (at, one) in all.iter().enumerate() {
        if !one.is_in_order {
            return Some(at);
        }
    }
    None
}

/// Whether all calls of the script were shown, or the request failed and fewer were.
fn shows_script(one: &Submission<'_>) -> bool
    ensures { result ≡ shows_own (submission_as one.now) }
{
    let shown = one.copy.calls.len();
    let all = one.request.calls.len();
    if shown > all {
        return false;
    }
    if shown == all {
        return one.copy.failed.is_none();
    }
    one.copy.failed.is_some()
}

/// The first submission of which that does not hold.
fn first_unshown(submissions: &[Submission<'_>]) -> Option<usize>
    ensures { is_none result ≡ list_all shows_own (map submission_as submissions.now) }
{
    for (at, one) in submissions.iter().enumerate() {
        if !shows_script(one) {
            return Some(at);
        }
    }
    None
}

/// The same of all clients.
fn unshown_request(all: &[Submissions<'_>]) -> Option<Place>
    ensures { is_none result ≡ list_all (list_all shows_own) (map submissions_as all.now) }
{
    for (client, one) in all.iter().enumerate() {
        if let Some(request) = first_unshown(one.all.as_slice()) {
            return Some(Place::Request { client, request });
        }
    }
    None
}

/// The first client or request whose reports are not those of the script. Linear.
pub(crate) fn wrong_report(all: &[Submissions<'_>]) -> Option<Place>
    ensures { is_none result ≡ (list_all (λ one. one.is_in_order) all.now
        && list_all (list_all shows_own) (map submissions_as all.now)) }
{
    if let Some(client) = first_disordered(all) {
        return Some(Place::Client(client));
    }
    unshown_request(all)
}
