//! Reader of what a document says of the service and of its drivers.
ghost use Rattle.std.specs.Prelude.{◌≡◌, IfOk, codes};
ghost use Rattle.json_form.specs.Faults.{Gives};
ghost use Rattle.json_form.specs.Objects.{members_at, without};
ghost use Rattle.json_form.specs.meaning.Texts.{word_of};
ghost use Rattle.document_forms.specs.meaning.Service.{failover_words, consistency_words, pool_of, keep_of, words_of, limits_of, shares_of, stores_of, service_with as service_with_def, service_of, usual_service as usual_service_def};

use crate::number::whole;
use document_limits::Number;
use json_form::{DocFault, Flag, Members, Reader, object_with, word_from};
use outage_schedule::{Consistency, Failover, KeepOf, PoolOf, ServiceOf};
use serde_json::Value as Json;
use std::alloc::Global;

/// What the drivers do at an outage.
#[derive(Clone, Copy)]
pub struct Words {
    pub failover: Failover,
    pub consistency: Consistency,
}

/// The pool, and the draws that keep their values at a replay.
#[derive(Clone, Copy)]
pub struct Shares {
    pub pool: PoolOf,
    pub keep: KeepOf,
}

/// For how many ticks outcomes are kept, and whether there is a second store.
#[derive(Clone, Copy)]
pub struct Stores {
    pub retention: u64,
    pub standby: bool,
}

/// The limits on tries, time and replays.
#[derive(Clone, Copy)]
pub struct Limits {
    pub retries: u64,
    pub delay: u64,
    pub timeout: u64,
    pub replays: u64,
    pub record_limit: u64,
}

/// Reads the word for what a driver does at an outage.
#[derive(Drop)]
struct FailoverReader;

impl Reader<Failover> for FailoverReader {
    ghost reads = { λ s. word_of failover_words };

    fn read(&self, alloc: Global, value: Json) -> Result<Failover, DocFault> {
        word_from(
            alloc,
            value,
            &[
                ("transaction", Failover::Transaction),
                ("none", Failover::Off),
                ("auto", Failover::Auto),
            ],
        )
    }
}

/// Reads the word for what disables a replay.
#[derive(Drop)]
struct ConsistencyReader;

impl Reader<Consistency> for ConsistencyReader {
    ghost reads = { λ s. word_of consistency_words };

    fn read(&self, alloc: Global, value: Json) -> Result<Consistency, DocFault> {
        word_from(
            alloc,
            value,
            &[
                ("dynamic", Consistency::Dynamic),
                ("static", Consistency::Static),
            ],
        )
    }
}

/// Reads the pool's slots and the ticks for which a request waits for one.
#[derive(Drop)]
struct PoolReader;

impl Reader<PoolOf> for PoolReader {
    ghost reads = { λ s. pool_of };

    #[tactic(auto, unfolding(crate::specs::meaning::Service::pool_of), using(json_form::proofs::Offered::others_stay))]
    fn read(&self, alloc: Global, value: Json) -> Result<PoolOf, DocFault> {
        let mut members = object_with(alloc, value, &["max", "wait"])?;
        let max = members.optional(alloc, "max", &whole(Number::Slots), 4)?;
        let wait = members.optional(alloc, "wait", &whole(Number::Wait), 1_000)?;
        Ok(PoolOf { max, wait })
    }
}

/// Reads which draws keep their values at a replay.
#[derive(Drop)]
struct KeepReader;

impl Reader<KeepOf> for KeepReader {
    ghost reads = { λ s. keep_of };

    #[tactic(auto, unfolding(crate::specs::meaning::Service::keep_of), using(json_form::proofs::Offered::others_stay))]
    fn read(&self, alloc: Global, value: Json) -> Result<KeepOf, DocFault> {
        let mut members = object_with(alloc, value, &["seq", "clock", "id"])?;
        let seq = members.optional(alloc, "seq", &Flag, false)?;
        let clock = members.optional(alloc, "clock", &Flag, false)?;
        let id = members.optional(alloc, "id", &Flag, false)?;
        Ok(KeepOf { seq, clock, id })
    }
}

/// The limits among the members of the service, which are taken out.
#[tactic(auto, unfolding(crate::specs::meaning::Service::limits_of), using(json_form::proofs::Offered::others_stay))]
fn limits_from(alloc: Global, members: &mut Members) -> Result<Limits, DocFault>
    ensures read { Gives result (limits_of (members_at members.old)) }
    ensures left { IfOk result (λ _. members_at members.new
        ≡ without (codes "record") (without (codes "replays") (without (codes "timeout")
        (without (codes "delay") (without (codes "retries") (members_at members.old)))))) }
{
    let retries = members.optional(alloc, "retries", &whole(Number::Tries), 30)?;
    let delay = members.optional(alloc, "delay", &whole(Number::Delay), 10)?;
    let timeout = members.optional(alloc, "timeout", &whole(Number::Timeout), 300)?;
    let replays = members.optional(alloc, "replays", &whole(Number::Replays), 4)?;
    let record_limit = members.optional(alloc, "record", &whole(Number::Recorded), 256)?;
    Ok(Limits {
        retries,
        delay,
        timeout,
        replays,
        record_limit,
    })
}

/// What the drivers do at an outage, among the members of the service, which are taken out.
#[tactic(auto, unfolding(crate::specs::meaning::Service::words_of), using(json_form::proofs::Offered::others_stay))]
fn words_from(alloc: Global, members: &mut Members) -> Result<Words, DocFault>
    ensures read { Gives result (words_of (members_at members.old)) }
    ensures left { IfOk result (λ _. members_at members.new
        ≡ without (codes "consistency") (without (codes "failover") (members_at members.old))) }
{
    let failover = members.optional(alloc, "failover", &FailoverReader, Failover::Transaction)?;
    let consistency = members.optional(
        alloc,
        "consistency",
        &ConsistencyReader,
        Consistency::Dynamic,
    )?;
    Ok(Words {
        failover,
        consistency,
    })
}

const USUAL_POOL: PoolOf = PoolOf {
    max: 4,
    wait: 1_000,
};

const USUAL_KEEP: KeepOf = KeepOf {
    seq: false,
    clock: false,
    id: false,
};

/// The pool and the draws that are kept, among the members of the service, which are taken out.
#[tactic(auto, unfolding(crate::specs::meaning::Service::shares_of), using(json_form::proofs::Offered::others_stay))]
fn shares_from(alloc: Global, members: &mut Members) -> Result<Shares, DocFault>
    ensures read { Gives result (shares_of (members_at members.old)) }
    ensures left { IfOk result (λ _. members_at members.new
        ≡ without (codes "keep") (without (codes "pool") (members_at members.old))) }
{
    let pool = members.optional(alloc, "pool", &PoolReader, USUAL_POOL)?;
    let keep = members.optional(alloc, "keep", &KeepReader, USUAL_KEEP)?;
    Ok(Shares { pool, keep })
}

/// What is said of the stores, among the members of the service, which are taken out.
#[tactic(auto, unfolding(crate::specs::meaning::Service::stores_of), using(json_form::proofs::Offered::others_stay))]
fn stores_from(alloc: Global, members: &mut Members) -> Result<Stores, DocFault>
    ensures { Gives result (stores_of (members_at members.old)) }
{
    let retention = members.optional(alloc, "retention", &whole(Number::Retention), 86_400)?;
    let standby = members.optional(alloc, "standby", &Flag, false)?;
    Ok(Stores { retention, standby })
}

fn service_with(words: Words, limits: Limits, shares: Shares, stores: Stores) -> ServiceOf
    ensures { result ≡ service_with_def words limits shares stores }
{
    ServiceOf {
        failover: words.failover,
        consistency: words.consistency,
        retries: limits.retries,
        delay: limits.delay,
        timeout: limits.timeout,
        replays: limits.replays,
        record_limit: limits.record_limit,
        pool: shares.pool,
        keep: shares.keep,
        retention: stores.retention,
        standby: stores.standby,
    }
}

/// The service of a document that says nothing of it.
pub fn usual_service() -> ServiceOf
    ensures { result ≡ usual_service_def }
{
    let words = Words {
        failover: Failover::Transaction,
        consistency: Consistency::Dynamic,
    };
    let limits = Limits {
        retries: 30,
        delay: 10,
        timeout: 300,
        replays: 4,
        record_limit: 256,
    };
    let shares = Shares {
        pool: USUAL_POOL,
        keep: USUAL_KEEP,
    };
    let stores = Stores {
        retention: 86_400,
        standby: false,
    };
    service_with(words, limits, shares, stores)
}

const MEMBERS: [&str; 11] = [
    "failover",
    "consistency",
    "retries",
    "delay",
    "timeout",
    "replays",
    "record",
    "pool",
    "keep",
    "retention",
    "standby",
];

/// Reads the service.
#[derive(Drop)]
pub struct ServiceReader;

impl Reader<ServiceOf> for ServiceReader {
    ghost reads = { λ s. service_of };

    #[tactic(auto, unfolding(crate::specs::meaning::Service::service_of), using(crate::proofs::Parts::parts_stay))]
    fn read(&self, alloc: Global, value: Json) -> Result<ServiceOf, DocFault> {
        let mut members = object_with(alloc, value, &MEMBERS)?;
        let words = words_from(alloc, &mut members)?;
        let limits = limits_from(alloc, &mut members)?;
        let shares = shares_from(alloc, &mut members)?;
        let stores = stores_from(alloc, &mut members)?;
        Ok(service_with(words, limits, shares, stores))
    }
}
