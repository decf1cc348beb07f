// The ranks that the maker writes, from the lengths of one side, as grids with rows of 64: A ranks from chain lengths, C ranks from match distances.
#![tactic(auto)]

ghost use Rattle.std.specs.Prelude.{◌≡◌, ◌<◌};
ghost use Rattle.rank_grids.specs.RankGrids.{stutter_where, match_by, stutter_grid, match_grid};

use lists::byte;
use sides::Side;
use std::array::from_fn;
use tables::Head;
use words::Row;

// The stutter rank of s and t, where `states` are those related to s.
#[tactic(auto, unfolding(crate::specs::RankGrids::stutter_where))]
fn stutter_rank(states: Row, chains: &[u8], s: usize, t: usize) -> u8
    requires { (s < 64) × (t < 64) }
    ensures { result ≡ stutter_where states.0 chains.now s t }
{
    if states.has(t) {
        byte(chains, t * Head::MAX_STATES + s) as u8
    } else {
        0
    }
}

// The A ranks by a table of chain lengths, row by row: that of s at t stands at 64 s + t.
pub fn stutter_ranks(ours: &Side, chains: &[u8]) -> [u8; Head::MAX_STATES * Head::MAX_STATES]
    ensures { result ≡ stutter_grid ours.now chains.now }
{
    from_fn(|i| {
        let s = i / Head::MAX_STATES;
        stutter_rank(ours.related(s), chains, s, i % Head::MAX_STATES)
    })
}

// The match rank of step j at t, one of n states.
#[tactic(auto, unfolding(crate::specs::RankGrids::match_by))]
fn match_rank(distances: &[u8], n: usize, j: usize, t: usize) -> u8
    requires { (j < 256) × (t < 64) }
    ensures { result ≡ match_by n distances.now j t }
{
    let distance = byte(distances, j * Head::MAX_STATES + t);
    if distance < n { distance as u8 } else { 0 }
}

// The C ranks by a table of distances, row by row: that of step j at t stands at 64 j + t.
pub fn match_ranks(theirs: &Side, distances: &[u8]) -> [u8; Head::MAX_STEPS * Head::MAX_STATES]
    ensures { result ≡ match_grid theirs.now distances.now }
{
    let n = theirs.states();
    from_fn(|i| match_rank(distances, n, i / Head::MAX_STATES, i % Head::MAX_STATES))
}
