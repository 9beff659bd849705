//! Numbers that are drawn, one after the other, by steps of a state.
ghost use Rattle.std.specs.Prelude.{◌≡◌, ◌≤◌, ◌<◌};
ghost use Rattle.load_document.specs.meaning.Loads.{next as next_def, drawn as drawn_def, behind as behind_def};

/// The state behind a draw: a step of a linear congruential generator.
#[tactic(auto, unfolding(crate::specs::meaning::Loads::next))]
pub(crate) fn next(state: u64) -> u64
    ensures { result ≡ next_def state }
{
    state
        .wrapping_mul(6_364_136_223_846_793_005)
        .wrapping_add(1_442_695_040_888_963_407)
}

/// The number that is drawn where a step led to this state. Its lower bits are of short periods,
/// and left out.
#[tactic(auto, unfolding(crate::specs::meaning::Loads::drawn))]
pub(crate) fn drawn(below: u64, state: u64) -> u64
    requires { 1 ≤ below }
    ensures drawn { result ≡ drawn_def below state }
    ensures small { result < below }
{
    (state >> 33) % below
}

/// The state behind so many draws.
pub(crate) fn behind(draws: u64, first: u64) -> u64
    ensures { result ≡ behind_def draws first }
{
    let mut state = first;
    for _ in 0..draws {
        state = next(state);
    }
    state
}
