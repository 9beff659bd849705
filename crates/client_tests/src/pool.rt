use pool_core::{Back, Pool, Take};

#[test]
fn no_newcomer_passes_who_waits(rt: HostRuntime) {
    let mut pool = Pool::new(rt.alloc(), 1);
    assert!(rt; matches!(pool.take(1), Ok(Take::Open)));
    assert!(rt; matches!(pool.take(2), Ok(Take::Waiting)));
    assert!(rt; matches!(pool.take(3), Ok(Take::Waiting)));
    pool.lost();
    assert!(rt; matches!(pool.take(3), Ok(Take::Waiting)));
    assert!(rt; matches!(pool.take(2), Ok(Take::Open)));
}

#[test]
fn what_was_idle_longest_is_lent(rt: HostRuntime) {
    let mut pool = Pool::new(rt.alloc(), 2);
    assert!(rt; matches!(pool.take(1), Ok(Take::Open)));
    pool.opened(1);
    assert!(rt; matches!(pool.take(2), Ok(Take::Open)));
    pool.opened(2);
    assert!(rt; matches!(pool.give_back(2), Ok(Back::Idle)));
    assert!(rt; matches!(pool.give_back(1), Ok(Back::Idle)));
    assert!(rt; matches!(pool.take(3), Ok(Take::Lent(2))));
    assert!(rt; matches!(pool.take(4), Ok(Take::Lent(1))));
}

#[test]
fn what_was_opened_before_a_drain_is_closed(rt: HostRuntime) {
    let mut pool = Pool::new(rt.alloc(), 2);
    assert!(rt; matches!(pool.take(1), Ok(Take::Open)));
    pool.opened(1);
    assert!(rt; matches!(pool.take(2), Ok(Take::Open)));
    pool.opened(2);
    assert!(rt; matches!(pool.give_back(1), Ok(Back::Idle)));
    let closed = pool.drain().expect(&rt, "the idle ones");
    assert!(rt; closed.as_slice() == [1].as_slice());
    assert!(rt; matches!(pool.give_back(2), Ok(Back::Closed)));
}

#[test]
fn who_left_and_what_ended_is_forgotten(rt: HostRuntime) {
    let mut pool = Pool::new(rt.alloc(), 1);
    assert!(rt; matches!(pool.take(1), Ok(Take::Open)));
    pool.opened(1);
    assert!(rt; matches!(pool.take(2), Ok(Take::Waiting)));
    pool.leave(2);
    assert!(rt; matches!(pool.give_back(1), Ok(Back::Idle)));
    pool.gone(1);
    assert!(rt; matches!(pool.take(3), Ok(Take::Open)));
}
