//! Numbers that are drawn one after another from a state.

ghost use Rattle.std.specs.Prelude.{◌≡◌};
ghost use Rattle.np_gen.specs.Site.{next_state, draw, after_draws};

/// Knuth's multiplier for MMIX.
const MULTIPLIER: u64 = 6_364_136_223_846_793_005;
/// Knuth's increment for MMIX.
const INCREMENT: u64 = 1_442_695_040_888_963_407;

/// The state after a draw.
#[tactic(auto, unfolding(crate::specs::Site::next_state))]
pub(crate) fn next_state(state: u64) -> u64
    ensures { result ≡ next_state state }
{
    state.wrapping_mul(MULTIPLIER).wrapping_add(INCREMENT)
}

/// The number that is drawn at a state.
#[tactic(auto, unfolding(crate::specs::Site::draw))]
pub(crate) fn draw(state: u64) -> u64
    ensures { result ≡ draw state }
{
    next_state(state) >> 33
}

/// The state after a number of draws.
#[tactic(auto, using(crate::proofs::DrillSite::draws))]
pub(crate) fn after_draws(count: u64, state: u64) -> u64
    ensures { result ≡ after_draws count state }
{
    let mut current = state;
    for _ in 0..count {
        current = next_state(current);
    }
    current
}
