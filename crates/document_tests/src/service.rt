//! The service of a document that says little of it.

use crate::makers::document;
use outage_schedule::{Consistency, Failover, ServiceOf};
use std::process::Abort;

/// Sees that each member has its usual value.
fn is_usual(rt: &impl Abort, service: &ServiceOf) {
    assert!(rt; matches!(service.failover, Failover::Transaction));
    assert!(rt; matches!(service.consistency, Consistency::Dynamic));
    assert_eq!(rt;
        [
            service.retries,
            service.delay,
            service.timeout,
            service.replays,
            service.record_limit,
            service.retention,
            service.pool.max,
            service.pool.wait
        ],
        [30, 10, 300, 4, 256, 86_400, 4, 1_000]
    );
    let keep = &service.keep;
    assert!(rt; !keep.seq && !keep.clock && !keep.id && !service.standby);
}

#[test]
fn members_that_are_missing_have_their_usual_values(rt: HostRuntime) {
    for text in [
        r#"{"clients":[]}"#,
        r#"{"clients":[],"service":{"pool":{},"keep":{}}}"#,
    ] {
        let document = document(&rt, rt.alloc(), text);
        is_usual(&rt, &document.service);
    }
}
