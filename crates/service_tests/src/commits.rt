//! Commits: marked ones, ones behind a change of what was read, and ones of a blocked identifier.

use crate::frames::Says::{Begin, Call, Connect, End, Marked};
use crate::script::Does::{
    Add, Commit, Count, Disable, Get, Insert, InsertCommit, Rollback, SetLang, ShowLang,
};
use crate::steps::Step::{self, Asks, Holds, Joins, On};
use crate::steps::{play, play_to_end};

const A_MARKED_COMMIT: &[Step] = &[
    Joins(1),
    On(1, Connect, "hello 1.1.0"),
    On(1, Begin, "nothing"),
    On(1, Marked(Commit, &[]), "commit in replay at 1.1.0"),
    Holds("opened 1, horizon 0"),
];

#[test]
fn a_commit_in_a_replay_stores_no_entry(rt: HostRuntime) {
    play(&rt, rt.alloc(), &[A_MARKED_COMMIT]);
}

/// Of two calls that were served in a replay the first wrote, and what it wrote is gone.
const A_COMMIT_BEHIND_A_WRITE: &[Step] = &[
    Joins(1),
    On(1, Connect, "hello 1.1.0"),
    On(1, Begin, "nothing"),
    On(1, Marked(Insert(1), &[]), "done 1 at 1.1.0"),
    On(
        1,
        Marked(InsertCommit(2), &[]),
        "done 1, commit in replay at 1.1.0",
    ),
    On(1, Call(Count), "number 0 at 1.1.0"),
    Holds("opened 1, horizon 0"),
];

#[test]
fn a_commit_in_a_replay_rolls_back(rt: HostRuntime) {
    play(&rt, rt.alloc(), &[A_COMMIT_BEHIND_A_WRITE]);
}

/// Two sessions have both read the account, and then add to it.
const TWO_UPDATES: &[Step] = &[
    Joins(1),
    Joins(2),
    On(1, Connect, "hello 1.1.0"),
    On(1, Begin, "nothing"),
    On(2, Connect, "hello 1.2.0"),
    On(2, Begin, "nothing"),
    On(1, Call(Get), "[1 100] at 1.1.0"),
    On(2, Call(Get), "[1 100] at 1.2.0"),
    On(1, Call(Add(5)), "done 1 at 1.1.0"),
    On(2, Call(Add(7)), "done 1 at 1.2.0"),
    On(1, Call(Commit), "committed at 1.1.1"),
    On(2, Call(Commit), "conflict at 1.2.0"),
    On(2, Call(Get), "[1 105] at 1.2.0"),
    Holds("opened 1, horizon 0, entry 1.1.0 completed true"),
];

#[test]
fn the_second_of_two_updates_of_one_row_conflicts(rt: HostRuntime) {
    play(&rt, rt.alloc(), &[TWO_UPDATES]);
}

/// A session has written a row, and its identifier is then asked for from outside.
const A_COMMIT_BEHIND_A_QUESTION: &[Step] = &[
    Joins(1),
    On(1, Connect, "hello 1.1.0"),
    On(1, Begin, "nothing"),
    On(1, Call(Insert(1)), "done 1 at 1.1.0"),
    Asks((1, 1, 0), "committed false, completed false"),
    On(1, Call(Commit), "blocked"),
    Holds("opened 1, horizon 0, blocked 1.1.0"),
    Joins(1),
    On(1, Connect, "hello 1.2.0"),
    On(1, Begin, "nothing"),
    On(1, Call(Count), "number 0 at 1.2.0"),
];

#[test]
fn an_identifier_that_was_asked_for_commits_no_more(rt: HostRuntime) {
    play(&rt, rt.alloc(), &[A_COMMIT_BEHIND_A_QUESTION]);
}

/// The settings and the transaction of a request end with it; a rollback takes the writes alone.
const TWO_REQUESTS: &[Step] = &[
    Joins(1),
    On(1, Connect, "hello 1.1.0"),
    On(1, Begin, "nothing"),
    On(1, Call(SetLang), "done 1 at 1.1.0"),
    On(1, Call(Insert(1)), "done 1 at 1.1.0"),
    On(1, Call(Disable), "done 0 at 1.1.0"),
    On(1, Call(Rollback), "rolled back at 1.1.0"),
    On(1, Call(ShowLang), "[5] at 1.1.0"),
    On(1, Call(Count), "number 0 at 1.1.0"),
    On(1, Call(Insert(2)), "done 1 at 1.1.0"),
    On(1, Call(Insert(2)), "refused DuplicateKey at 1.1.0"),
    On(1, End, "nothing"),
    On(1, Begin, "nothing"),
    On(1, Call(ShowLang), "refused NoVar at 1.1.0"),
    On(1, Call(Count), "number 0 at 1.1.0"),
    On(1, Call(InsertCommit(2)), "done 1, committed at 1.1.1"),
    Holds("opened 1, horizon 0, entry 1.1.0 completed false"),
];

#[test]
fn what_a_request_leaves_to_the_next_one(rt: HostRuntime) {
    let left = "horizon 0, entry 1.1.0 completed false, acc [1 100], t [2 a]";
    play_to_end(&rt, rt.alloc(), (0, 0), &[TWO_REQUESTS], left);
}
