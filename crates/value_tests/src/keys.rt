use svc_values::{KeyMap, KeySet};

#[test]
fn a_map_has_the_last_value_of_each_key(rt: HostRuntime) {
    let mut map: KeyMap<(u64, u64), i64> = KeyMap::new(rt.alloc());
    for (key, value) in [((2, 1), 10), ((1, 2), 20), ((2, 1), 30)] {
        map.put(key, value).expect(&rt, "memory");
    }
    assert_eq!(rt; map.len(), 2);
    assert!(rt; map.get(&(2, 1)) == Some(&30));
    assert!(rt; map.has(&(1, 2)));
    assert!(rt; map.get(&(1, 1)).is_none());
    assert!(rt; !map.has(&(2, 2)));
}

#[test]
fn a_set_has_each_key_once(rt: HostRuntime) {
    let mut set: KeySet<(u64, u64, u64)> = KeySet::new(rt.alloc());
    for key in [(1, 2, 3), (1, 2, 4), (1, 2, 3)] {
        set.add(key).expect(&rt, "memory");
    }
    assert_eq!(rt; set.len(), 2);
    assert!(rt; set.has(&(1, 2, 4)));
    assert!(rt; !set.has(&(1, 2, 5)));
}
