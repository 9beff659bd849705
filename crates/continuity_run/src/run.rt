//! The run of a document.
ghost use Rattle.std.specs.Prelude.{◌≡◌, IfOk};
ghost use Rattle.outage_schedule.specs.declared.document.Document.{Document as Given};
ghost use Rattle.doc_reader.specs.Keeping.{IsDocument};
ghost use Rattle.run_clauses.specs.meaning.ServiceBase.{grants_of as grants_def};
ghost use Rattle.service_calls.specs.Kept.{HaveOneBase};
ghost use Rattle.world_model.specs.meaning.Settings.{rules_of};
ghost use Rattle.continuity_run.specs.meaning.Headline.{Headline};
ghost use Rattle.continuity_run.specs.RunLaws.{RunsHold};
ghost use Rattle.continuity_run.specs.Runs.{HasRun, IsReportOf, IsRunOf, IsRunOfSome};

use crate::reporting::report_of;
use crate::store::{Before, Store, store_of};
use auto_bounds::AutoRule;
use before_run::indexes_of;
use calm_laws::laws::calm_runs_answer;
use disk_model::MemDisk;
use fresh_laws::laws::runs_are_fresh;
use legal_laws::judged::{runs_are_fresh_new, runs_are_legal, runs_are_set_aside};
use legal_laws::laws::runs_are_legal_told;
use mutable_values::Grants;
use once_laws::laws::{outcomes_are_stored, reports_are_once};
use outage_schedule::{
    Client, Clients, Consistency, Document, Event, Failover, KeepOf, Report, ServiceOf,
};
use request_bounds::{BoundRule, DynamicRule, OffRule, StaticRule};
use run_laws::finish_laws::finish_is_short;
use run_laws::stored_laws::{
    answers_are_right, blocks_are_answered, blocks_stay_apart, horizons_are_told,
    incarnations_are_stored,
};
use same_laws::laws::{runs_are_same, runs_are_scripted};
use server_model::laws::runs_serial;
use service_calls::Service;
use service_core::OneService;
use shown_laws::laws::runs_are_caused;
use shown_laws::reports::runs_are_whole;
use standby_ship::Pair;
use std::alloc::Global;
use svc_values::NoMemory;
use world_model::laws::{finish_falls, finish_goes_on, runs_are_followed, runs_are_orderly};
use world_run::{Ran, World};

/// What a service grants.
fn grants_of(keep: KeepOf) -> Grants
    ensures { result ≡ grants_def keep }
{
    Grants {
        seq: keep.seq,
        clock: keep.clock,
        id: keep.id,
    }
}

/// The whole run of these scripts and this schedule over a service, with its finish, under a rule.
fn run_by<S: Service + Drop, R: BoundRule + Copy>(
    alloc: Global,
    of: &ServiceOf,
    scripts: &[Client],
    schedule: &[Event],
    service: S,
    opened: bool,
    rule: R,
) -> Result<Ran<S>, NoMemory>
    requires begins { IsRunOfSome (S.sees service) (R.rules rule) of.now scripts.now schedule.now
        opened }
    ensures ran { IfOk result (λ ran. (document : Given)
        → IsRunOf (S.sees service) (R.rules rule) of.now scripts.now schedule.now opened document
        → HasRun S.sees document ran) }
    ensures base { IfOk result (λ ran. HaveOneBase (S.bytes service) (S.bytes ran.service)) }
{
    finish_is_short();
    let mut world = World::new(alloc, of, scripts, service, rule, opened)?;
    for event in schedule {
        world.step(alloc, scripts, event)?;
    }
    world.finish(alloc, scripts)?;
    world.into_ran(alloc)
}

/// The whole run, under the rule of the service.
fn run_all<S: Service + Drop>(
    alloc: Global,
    of: &ServiceOf,
    scripts: &[Client],
    schedule: &[Event],
    service: S,
    opened: bool,
) -> Result<Ran<S>, NoMemory>
    requires begins { IsRunOfSome (S.sees service) (rules_of of.now.failover of.now.consistency)
        of.now scripts.now schedule.now opened }
    ensures ran { IfOk result (λ ran. (document : Given)
        → IsRunOf (S.sees service) (rules_of of.now.failover of.now.consistency) of.now scripts.now
        schedule.now opened document → HasRun S.sees document ran) }
    ensures base { IfOk result (λ ran. HaveOneBase (S.bytes service) (S.bytes ran.service)) }
{
    match (of.failover, of.consistency) {
        (Failover::Off, _) => run_by(alloc, of, scripts, schedule, service, opened, OffRule),
        (Failover::Auto, _) => run_by(alloc, of, scripts, schedule, service, opened, AutoRule),
        (Failover::Transaction, Consistency::Static) => {
            run_by(alloc, of, scripts, schedule, service, opened, StaticRule)
        }
        (Failover::Transaction, Consistency::Dynamic) => {
            run_by(alloc, of, scripts, schedule, service, opened, DynamicRule)
        }
    }
}

/// The report of the whole run over a service, read off what its store holds at the end.
fn run_over<S: Service + Drop>(
    alloc: Global,
    of: &ServiceOf,
    scripts: &[Client],
    schedule: &[Event],
    service: S,
    opened: bool,
    before: Before,
    print_image: bool,
) -> Result<Report, NoMemory>
    requires begins { IsRunOfSome (S.sees service) (rules_of of.now.failover of.now.consistency)
        of.now scripts.now schedule.now opened }
    ensures { IfOk result (λ report. (document : Given)
        → IsRunOf (S.sees service) (rules_of of.now.failover of.now.consistency) of.now scripts.now
        schedule.now opened document
        → IsReportOf S.sees S.bytes (S.bytes service) before print_image document report) }
{
    finish_falls();
    finish_goes_on();
    finish_is_short();
    runs_are_orderly();
    let ran = run_all(alloc, of, scripts, schedule, service, opened)?;
    report_of(alloc, ran, before, print_image)
}

/// What holds of whole runs and of their reports.
fn runs_hold()
    ensures { RunsHold }
{
    runs_are_followed();
    runs_serial();
    runs_are_legal();
    runs_are_legal_told();
    runs_are_fresh_new();
    runs_are_set_aside();
    runs_are_fresh();
    reports_are_once();
    runs_are_same();
    runs_are_scripted();
    outcomes_are_stored();
    answers_are_right();
    horizons_are_told();
    incarnations_are_stored();
    blocks_stay_apart();
    blocks_are_answered();
    runs_are_caused();
    runs_are_whole();
    calm_runs_answer();
}

/// The run of a document: the scripts of its clients, as they were, and its report. Where the
/// document asks for a second store, it begins with a copy of the first one's bytes.
pub fn run_document(alloc: Global, document: Document) -> Result<(Clients, Report), NoMemory>
    requires document { IsDocument document }
    ensures scripts { IfOk result (λ ran. ran.0 ≡ document.clients) }
    ensures report { IfOk result (λ ran. Headline document ran.1) }
{
    runs_hold();
    let Document {
        service: of,
        tables,
        sequences,
        image,
        print_image,
        clients,
        schedule,
    } = document;
    let indexes = indexes_of(alloc, tables.as_slice())?;
    let Store {
        disk,
        found,
        before,
    } = store_of(alloc, tables, sequences, image)?;
    let opened = found.is_opened;
    let grants = grants_of(of.keep);
    if of.standby {
        let second = MemDisk::of(alloc, disk.bytes())?;
        let service = Pair::known(alloc, disk, second, grants, indexes, found)?;
        let report = run_over(
            alloc,
            &of,
            clients.as_slice(),
            schedule.as_slice(),
            service,
            opened,
            before,
            print_image,
        )?;
        return Ok((clients, report));
    }
    let service = OneService::known(alloc, disk, grants, indexes, found)?;
    let report = run_over(
        alloc,
        &of,
        clients.as_slice(),
        schedule.as_slice(),
        service,
        opened,
        before,
        print_image,
    )?;
    Ok((clients, report))
}
