//! The document: the scripts of its clients, and the whole.
ghost use Rattle.std.specs.Prelude.{◌≡◌, ◌≤◌, IfOk};
ghost use Rattle.doc_reader.specs.Keeping.{IsDocument};
ghost use Rattle.load_document.specs.meaning.Loads.{transfers as transfers_def, scripts as scripts_def, load_service as load_service_def, loaded};

use crate::drawing::{behind, drawn, next};
use crate::parts::{accounts, transfer};
use crate::schedule::events;
use outage_schedule::{
    Client, Clients, Consistency, DocSequences, DocTables, Document, Failover, KeepOf, PoolOf,
    Requests, ServiceOf,
};
use std::alloc::Global;
use svc_values::NoMemory;

/// So many transfers, each of two accounts that are drawn from this state on.
fn transfers(alloc: Global, requests: u64, first: u64) -> Result<Requests, NoMemory>
    ensures { IfOk result (λ all. all ≡ transfers_def requests first) }
{
    let mut all = Vec::new(alloc);
    let mut state = first;
    for _ in 0..requests {
        let from = next(state);
        let to = next(from);
        all.push(transfer(alloc, drawn(16, from), drawn(16, to))?)?;
        state = to;
    }
    Ok(Requests::from_vec(all))
}

/// So many clients with so many transfers each.
fn scripts(alloc: Global, clients: u64, requests: u64, first: u64) -> Result<Clients, NoMemory>
    requires { requests ≤ 10 }
    ensures { IfOk result (λ all. all ≡ scripts_def clients requests first) }
{
    let mut all = Vec::new(alloc);
    let mut state = first;
    for _ in 0..clients {
        let requests_of = transfers(alloc, requests, state)?;
        all.push(Client {
            requests: requests_of,
        })?;
        state = behind(2 * requests, state);
    }
    Ok(Clients::from_vec(all))
}

/// The service of so many clients: as where a document says nothing of it, but for the pool.
fn load_service(clients: u64) -> ServiceOf
    requires { clients ≤ 64 }
    ensures { result ≡ load_service_def clients }
{
    ServiceOf {
        failover: Failover::Transaction,
        consistency: Consistency::Dynamic,
        retries: 30,
        delay: 10,
        timeout: 300,
        replays: 4,
        record_limit: 256,
        pool: PoolOf {
            max: 1 + clients / 2,
            wait: 1_000,
        },
        keep: KeepOf {
            seq: false,
            clock: false,
            id: false,
        },
        retention: 86_400,
        standby: false,
    }
}

/// The document of a load: so many clients move money between sixteen accounts in so many requests
/// each, while connections are cut. The same numbers make the same document. Linear in the
/// requests.
pub fn load_document(
    alloc: Global,
    seed: u64,
    clients: u64,
    requests: u64,
) -> Result<Document, NoMemory>
    requires some { 1 ≤ clients }
    requires few { clients ≤ 64 }
    requires some_requests { 1 ≤ requests }
    requires few_requests { requests ≤ 10 }
    ensures made { IfOk result (λ made. made ≡ loaded seed clients requests) }
    ensures kept { IsDocument (loaded seed clients requests) }
{
    let tables = Vec::from_array(alloc, [accounts(alloc)?])?;
    let scripts = scripts(alloc, clients, requests, seed)?;
    let state = behind(2 * clients * requests, seed);
    let schedule = events(alloc, clients, 4 * clients * requests, state)?;
    Ok(Document {
        service: load_service(clients),
        tables: DocTables::from_vec(tables),
        sequences: DocSequences::new(alloc),
        image: None,
        print_image: false,
        clients: scripts,
        schedule,
    })
}
