//! Draws: new ones, kept ones, those that are kept in vain, and those behind an opening.

use crate::bench::{ALL, NONE, opened};
use crate::frames::Keeps;
use crate::frames::Says::{Begin, Call, Connect, Keeping, Marked};
use crate::images::SHOP;
use crate::script::Asks::{self, Clock, Id, Seq};
use crate::script::Does::Show;
use crate::steps::Step::{self, Crashes, Holds, Joins, On, Opens};
use crate::steps::{Case, go_through, play};
use mutable_values::Grants;
use std::alloc::Global;
use std::process::Abort;

/// A request of the first session begins.
const BEGUN: &[Step] = &[
    Joins(1),
    On(1, Connect, "hello 1.1.0"),
    On(1, Begin, "nothing"),
];

/// Has a service with these grants go on behind that.
fn play_with(rt: &impl Abort, alloc: Global, grants: Grants, case: Case, steps: &[Step]) {
    let mut bench = opened(rt, alloc, &SHOP, grants);
    go_through(rt, &mut bench, case, &[BEGUN, steps]);
}

const EIGHT: &[Asks] = &[
    Seq("s"),
    Seq("s"),
    Seq("s"),
    Seq("s"),
    Seq("s"),
    Seq("s"),
    Seq("s"),
    Seq("s"),
];

const FIRST_EIGHT: &str =
    "[1], [2], [3], [4], [5], [6], [7], [8], drew s 1, drew s 2, drew s 3, drew s 4, drew s 5, drew s 6, drew s 7, drew s 8 at 1.1.0";

const NEXT_EIGHT: &str =
    "[9], [10], [11], [12], [13], [14], [15], [16], drew s 9, drew s 10, drew s 11, drew s 12, drew s 13, drew s 14, drew s 15, drew s 16 at 1.1.0";

const SEVENTEEN: &[Step] = &[
    On(1, Call(Show(EIGHT)), FIRST_EIGHT),
    Holds("opened 1, horizon 0, s to 16"),
    On(1, Call(Show(EIGHT)), NEXT_EIGHT),
    Holds("opened 1, horizon 0, s to 16"),
    On(1, Call(Show(&[Seq("s")])), "[17], drew s 17 at 1.1.0"),
    Holds("opened 1, horizon 0, s to 16, s to 32"),
];

#[test]
fn sixteen_values_are_reserved_at_once(rt: HostRuntime) {
    play(&rt, rt.alloc(), &[BEGUN, SEVENTEEN]);
}

const THREE: &[Asks] = &[Seq("s"), Seq("s"), Seq("s")];

const KEPT: &[Keeps] = &[Keeps::Seq("s", 5), Keeps::Seq("s", 7)];

const TWO_ARE_KEPT: &[Step] = &[On(
    1,
    Marked(Show(THREE), KEPT),
    "[5], [7], [1], drew s 5, drew s 7, drew s 1 at 1.1.0",
)];

#[test]
fn kept_values_are_given_before_new_ones(rt: HostRuntime) {
    play(&rt, rt.alloc(), &[BEGUN, TWO_ARE_KEPT]);
}

const ALL_ARE_NEW: &str = "[1], [2], [3], drew s 1, drew s 2, drew s 3 at 1.1.0";

#[test]
fn without_a_grant_all_values_are_new(rt: HostRuntime) {
    let others = Grants { seq: false, ..ALL };
    for (case, grants) in [(1, NONE), (2, others)] {
        let steps = [On(1, Marked(Show(THREE), KEPT), ALL_ARE_NEW)];
        play_with(&rt, rt.alloc(), grants, (case, 0), steps.as_slice());
    }
}

const WITHOUT_A_MARK: &[Step] = &[On(1, Keeping(Show(THREE), KEPT), ALL_ARE_NEW)];

#[test]
fn without_a_mark_all_values_are_new(rt: HostRuntime) {
    play(&rt, rt.alloc(), &[BEGUN, WITHOUT_A_MARK]);
}

/// Draws are kept for their own kind and name, and of a sequence that is kept; a name that is no
/// sequence is no help.
const OF_OTHERS: &[Step] = &[
    On(
        1,
        Marked(
            Show(&[Seq("s"), Seq("r")]),
            &[Keeps::Clock(3), Keeps::Seq("r", 9), Keeps::Id(8)],
        ),
        "[1], [9], drew s 1, drew r 9 at 1.1.0",
    ),
    On(
        1,
        Marked(
            Show(&[Seq("n"), Seq("s")]),
            &[Keeps::Seq("n", 5), Keeps::Seq("s", 6)],
        ),
        "[1], [6], drew n 1, drew s 6 at 1.1.0",
    ),
    On(
        1,
        Marked(Show(&[Seq("q")]), &[Keeps::Seq("q", 4)]),
        "refused NoSequence at 1.1.0",
    ),
    On(
        1,
        Marked(Show(&[Seq("s")]), &[Keeps::Seq("q", 4)]),
        "[2], drew s 2 at 1.1.0",
    ),
];

#[test]
fn a_value_is_kept_for_its_kind_and_name(rt: HostRuntime) {
    play(&rt, rt.alloc(), &[BEGUN, OF_OTHERS]);
}

const KINDS: &[Asks] = &[Clock, Id, Seq("s")];

const OF_KINDS: &[Keeps] = &[Keeps::Seq("s", 5), Keeps::Id(8), Keeps::Clock(3)];

/// The tick of each call is 7.
const NEW_OF_EACH: &str =
    "[7], [00000000000000010000000000000001], [1], drew clock 7, drew id 00000000000000010000000000000001, drew s 1 at 1.1.0";

const KEPT_OF_EACH: &str =
    "[3], [08080808080808080808080808080808], [5], drew clock 3, drew id 08080808080808080808080808080808, drew s 5 at 1.1.0";

const CLOCK_OF_EACH: &str =
    "[3], [00000000000000010000000000000001], [1], drew clock 3, drew id 00000000000000010000000000000001, drew s 1 at 1.1.0";

#[test]
fn each_kind_has_a_grant_of_its_own(rt: HostRuntime) {
    let clock = Grants {
        clock: true,
        ..NONE
    };
    for (case, grants, told) in [
        (1, NONE, NEW_OF_EACH),
        (2, ALL, KEPT_OF_EACH),
        (3, clock, CLOCK_OF_EACH),
    ] {
        let steps = [On(1, Marked(Show(KINDS), OF_KINDS), told)];
        play_with(&rt, rt.alloc(), grants, (case, 0), steps.as_slice());
    }
}

/// A request of the first session of the next opening begins.
const BEGUN_AGAIN: &[Step] = &[
    Crashes(0),
    Opens(0),
    Joins(1),
    On(1, Connect, "hello 2.1.0"),
    On(1, Begin, "nothing"),
];

const ONE: &[Step] = &[On(1, Call(Show(&[Seq("s")])), "[1], drew s 1 at 1.1.0")];

const BEHIND_A_RESERVATION: &[Step] = &[
    On(1, Call(Show(&[Seq("s")])), "[17], drew s 17 at 2.1.0"),
    Holds("opened 2, horizon 0, s to 16, s to 32"),
];

#[test]
fn a_sequence_goes_on_behind_its_reservation(rt: HostRuntime) {
    play(
        &rt,
        rt.alloc(),
        &[BEGUN, ONE, BEGUN_AGAIN, BEHIND_A_RESERVATION],
    );
}

const ONE_IDENTIFIER: &[Step] = &[On(
    1,
    Call(Show(&[Id])),
    "[00000000000000010000000000000001], drew id 00000000000000010000000000000001 at 1.1.0",
)];

const TWO_IDENTIFIERS: &[Step] = &[On(
    1,
    Call(Show(&[Id, Id])),
    "[00000000000000020000000000000001], [00000000000000020000000000000002], drew id 00000000000000020000000000000001, drew id 00000000000000020000000000000002 at 2.1.0",
)];

#[test]
fn identifiers_count_from_one_in_each_opening(rt: HostRuntime) {
    play(
        &rt,
        rt.alloc(),
        &[BEGUN, ONE_IDENTIFIER, BEGUN_AGAIN, TWO_IDENTIFIERS],
    );
}
