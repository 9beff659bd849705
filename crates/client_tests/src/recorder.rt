use call_recorder::{NoteFault, Recorder, Seen};
use std::alloc::Global;
use svc_values::{Call, Draws};

const SEEN: Seen = Seen { digest: [7; 32] };

fn note(recorder: &mut Recorder, alloc: Global) -> Result<(), NoteFault> {
    recorder.note(Call::Disable, SEEN, Draws::new(alloc))
}

#[test]
fn a_recorder_takes_its_limit_again_after_a_purge(rt: HostRuntime) {
    let mut recorder = Recorder::new(rt.alloc(), 2);
    assert!(rt; recorder.is_empty());
    for _round in 0..2 {
        assert!(rt; note(&mut recorder, rt.alloc()).is_ok());
        assert!(rt; note(&mut recorder, rt.alloc()).is_ok());
        assert!(rt; matches!(note(&mut recorder, rt.alloc()), Err(NoteFault::Full)));
        assert!(rt; recorder.len() == 2);
        let second = recorder.entry(1).expect(&rt, "a second call");
        assert!(rt; second.call == Call::Disable && second.seen.digest == SEEN.digest);
        recorder.purge();
        assert!(rt; recorder.entry(0).is_none());
    }
}
