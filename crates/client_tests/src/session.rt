use session_state::SessionState;
use std::alloc::Global;
use std::process::Abort;
use svc_values::{Name, Settings, Value};

fn name(rt: &impl Abort, alloc: Global, text: &str) -> Name {
    Name::new(alloc, text).expect(rt, "a name")
}

/// Whether the name has this value.
fn has(state: &SessionState, name: &Name, number: i64) -> bool {
    state
        .get(name)
        .is_some_and(|value| *value == Value::Int(number))
}

#[test]
fn settings_hold_until_the_request_ends(rt: HostRuntime) {
    let lang = name(&rt, rt.alloc(), "lang");
    let mut state = SessionState::new(rt.alloc());
    assert!(rt; state.get(&lang).is_none());
    for number in [1, 2] {
        let set = state.set(name(&rt, rt.alloc(), "lang"), Value::Int(number));
        assert!(rt; set.is_ok() && has(&state, &lang, number));
    }
    let zone = name(&rt, rt.alloc(), "zone");
    let mut given = Settings::new(rt.alloc());
    given
        .put(name(&rt, rt.alloc(), "zone"), Value::Int(3))
        .expect(&rt, "a setting");
    state.begin(given);
    assert!(rt; state.get(&lang).is_none() && has(&state, &zone, 3));
    state.reset();
    assert!(rt; state.settings.len() == 0);
}
