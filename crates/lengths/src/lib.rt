// The maker's arithmetic for one side: match distances by relaxing a row of lengths, the lengths of stuttering chains by recursion on their bound, and the
// ranks that the two give.
#![tactic(auto)]

ghost use Rattle.std.specs.Prelude.{◌≡◌, false, ℕ, ◌^◌, ◌≤◌, ◌<◌, length, get_or, take};
ghost use Rattle.lists.specs.Lists.{tabulate, grid};
ghost use Rattle.bisimulation.specs.Maker.{distance, chain_along};
ghost use Rattle.sides.specs.Side.{related_to, system_in};
ghost use Rattle.sides.specs.Views.{view_in};
ghost use Rattle.lengths.specs.Cells.{distance_at, distance_table, chain_table};
ghost use Rattle.lengths.specs.Chains.{open_by, chain_by};
ghost use Rattle.lengths.specs.OpenSteps.{kept_system, every, is_open, longest, Ends, Open};
ghost use Rattle.lengths.specs.Relaxing.{met_by, shortens, Bounds, Settled, Round};

use lists::byte;
use sides::{Side, View};
use tables::Head;
use words::Row;

// A length for each state below 64.
type Lengths = [u8; Head::MAX_STATES];

// A step that is kept: the states that it leaves and enters.
#[derive(Clone, Copy)]
struct Kept {
    from: u8,
    to: u8,
}

// The lengths of one side: the match distance of step j at t stands at 64 j + t, and the most steps in a chain at t from s at 64 t + s.
#[derive(Drop)]
pub struct Measured {
    pub distances: [u8; Head::MAX_STEPS * Head::MAX_STATES],
    pub chains: [u8; Head::MAX_STATES * Head::MAX_STATES],
}

// ---- match distances

// Whether their step e, from x to y, shortens the length at x: the step is silent.
#[tactic(auto, unfolding(crate::specs::Relaxing::shortens))]
fn is_shorter(theirs: &Side, row: &Lengths, states: Row, e: usize, x: usize, y: usize) -> bool
    ensures { result ≡ shortens states.0 row.now x y ((system_in theirs.now).silent e) }
{
    x < Head::MAX_STATES
        && y < Head::MAX_STATES
        && usize::from(row[y]) + 1 < usize::from(row[x])
        && states.has(x)
        && theirs.key(e) == 0
}

// Whether their step e meets an obligation by 2a, where `leaving` and `entering` are related to the states that our step leaves and enters, and `by` is its
// key.
#[tactic(auto, unfolding(crate::specs::Relaxing::met_by))]
fn is_met(theirs: &Side, leaving: Row, entering: Row, by: usize, e: usize) -> bool
    ensures { result ≡ met_by theirs.now leaving.0 entering.0 by e }
{
    leaving.has(theirs.from(e)) && entering.has(theirs.to(e)) && theirs.key(e) == by
}

// Makes the row to relax for our step j: 0 at the states where it is matched by 2a, and their number of states at the others. Whether a round may change it,
// which it cannot where the step is matched so at every state that is related to the one that it leaves.
fn start(view: View, j: usize, row: &mut Lengths) -> bool
    ensures row { Bounds (view_in view.entry.ours.now view.entry.theirs.now) j (system_in view.entry.theirs.now).steps row.new }
    ensures settled { result ≡ false
        → Settled (view_in view.entry.ours.now view.entry.theirs.now) j (system_in view.entry.theirs.now).steps row.new }
    ensures small { related_to view.entry.ours.now ((system_in view.entry.ours.now).from j) < 2 ^ 64 }
{
    let from_states = view.ours.related(view.ours.from(j));
    let to_states = view.ours.related(view.ours.to(j));
    let by = view.ours.key(j);
    let mut matched = Row::empty();
    *row = [view.theirs.states() as u8; Head::MAX_STATES];
    for e in 0..view.theirs.step_count() {
        if is_met(view.theirs, from_states, to_states, by, e) {
            let x = view.theirs.from(e);
            row[x] = 0;
            matched = matched.add(x);
        }
    }
    let rest = from_states.without(matched);
    !rest.is_empty()
}

// One round over their steps: each silent one shortens the length at the state it leaves, where it can. Whether one did. A call of its own: made one loop with
// that over the rounds, a turn of it takes half as long again.
#[inline(never)]
fn relax(view: View, j: usize, row: &mut Lengths) -> bool
    requires { Bounds (view_in view.ours.now view.theirs.now) j (system_in view.theirs.now).steps row.old }
    ensures { Round (view_in view.entry.ours.now view.entry.theirs.now) j (system_in view.entry.theirs.now).steps
        row.old row.new result }
{
    let from_states = view.ours.related(view.ours.from(j));
    let mut changed = false;
    for e in 0..view.theirs.step_count() {
        let x = view.theirs.from(e);
        let y = view.theirs.to(e);
        if is_shorter(view.theirs, row, from_states, e, x, y) {
            row[x] = row[y] + 1;
            changed = true;
        }
    }
    changed
}

// The match distances of our step j at each of their states: a row is relaxed until a round changes nothing.
fn step_distances(view: View, j: usize) -> Lengths
    ensures { result ≡ tabulate 64 (distance (view_in view.entry.ours.now view.entry.theirs.now) j) }
{
    let mut row = [0; Head::MAX_STATES];
    if start(view, j, &mut row) {
        while relax(view, j, &mut row) {}
    }
    row
}

// The match distances of all our steps, row by row. Past the last step the rows stay zeros.
// No function that takes what makes a row fills the tables of rows, here and in `match_sets`: it would be public, and a closure that is called needs a
// `requires`, which no public function has.
fn all_distances(view: View) -> [u8; Head::MAX_STEPS * Head::MAX_STATES]
    ensures { result ≡ grid 256 64 (distance_at (view_in view.entry.ours.now view.entry.theirs.now)) }
{
    let mut at = [0u8; Head::MAX_STEPS * Head::MAX_STATES];
    for j in 0..view.ours.step_count() {
        let a = j * Head::MAX_STATES;
        let row = step_distances(view, j);
        at[a..a + Head::MAX_STATES].copy_from_slice(&row);
    }
    at
}

// ---- chains

// Whether our step j leaves a state below 64 and may stand in a chain at t, by a table of distances.
#[tactic(auto, unfolding(crate::specs::OpenSteps::is_open, crate::specs::Chains::open_by))]
fn is_open(view: View, distances: &[u8], t: usize, j: usize) -> bool
    requires { (j < 256) × (t < 64) }
    ensures { result ≡ is_open (system_in view.entry.ours.now) (open_by (view_in view.entry.ours.now view.entry.theirs.now) distances.now t) j }
{
    let leaves = view.ours.from(j);
    let enters = view.ours.to(j);
    leaves < Head::MAX_STATES
        && view.ours.related(enters).has(t)
        && view.theirs.states() <= byte(distances, j * Head::MAX_STATES + t)
        && view.ours.key(j) == 0
}

// Keeps our steps that may stand in a chain at t, in their order, and says how many they are.
fn open_steps(view: View, distances: &[u8], t: usize, kept: &mut [Kept; Head::MAX_STEPS]) -> usize
    requires { t < 64 }
    ensures few { result ≤ 256 }
    ensures kept { Open (system_in view.entry.ours.now) (open_by (view_in view.entry.ours.now view.entry.theirs.now) distances.now t)
        (system_in view.entry.ours.now).steps (take result kept.new) }
{
    let mut count: usize = 0;
    for j in 0..view.ours.step_count() {
        if is_open(view, distances, t, j) {
            kept[count] = Kept {
                from: view.ours.from(j) as u8,
                to: view.ours.to(j) as u8,
            };
            count += 1;
        }
    }
    count
}

// One round: for each state one more than the greatest length over its next states, and 0 where no step leaves it.
fn lengthen(kept: &[Kept], before: Lengths) -> Lengths
    requires ends { Ends kept.now }
    requires room { (i : ℕ) → get_or before i 0 < 255 }
    ensures { result ≡ tabulate 64 (longest (kept_system kept.now) every (λ u. get_or before u 0) (length kept.now)) }
{
    let mut next = [0u8; Head::MAX_STATES];
    for step in kept {
        let x = usize::from(step.from);
        let more = before[usize::from(step.to)] + 1;
        next[x] = next[x].max(more);
    }
    next
}

// The most steps in a chain of these steps, of at most k, for all states together.
// It calls itself with k - 1 and hands the row on by value: this form is a fixed promise.
fn chain_lengths(kept: &[Kept], k: u8) -> Lengths
    requires { Ends kept.now }
    ensures { result ≡ tabulate 64 (chain_along (kept_system kept.now) every k) }
{
    if k == 0 {
        return [0; Head::MAX_STATES];
    }
    let before = chain_lengths(kept, k - 1);
    lengthen(kept, before)
}

// The most steps in a chain at t, of at most as many as we have states, for all our states together, by a table of distances.
fn chains_at(view: View, distances: &[u8], t: usize) -> Lengths
    requires { t < 64 }
    ensures { result ≡ tabulate 64 (chain_by (view_in view.entry.ours.now view.entry.theirs.now) distances.now t) }
{
    let mut kept = [Kept { from: 0, to: 0 }; Head::MAX_STEPS];
    let count = open_steps(view, distances, t, &mut kept);
    chain_lengths(&kept[..count], view.ours.states() as u8)
}

// The most steps in a chain at each of their states, row by row, by a table of distances.
pub fn all_chains(view: View, distances: &[u8]) -> [u8; Head::MAX_STATES * Head::MAX_STATES]
    ensures { result ≡ grid 64 64 (chain_by (view_in view.entry.ours.now view.entry.theirs.now) distances.now) }
{
    let mut at = [0u8; Head::MAX_STATES * Head::MAX_STATES];
    for t in 0..Head::MAX_STATES {
        let a = t * Head::MAX_STATES;
        let row = chains_at(view, distances, t);
        at[a..a + Head::MAX_STATES].copy_from_slice(&row);
    }
    at
}

// The match distances of our steps, and the lengths of our chains of unmatched steps.
pub fn measure(view: View) -> Measured
    ensures distances { result.distances ≡ distance_table (view_in view.entry.ours.now view.entry.theirs.now) }
    ensures chains { result.chains ≡ chain_table (view_in view.entry.ours.now view.entry.theirs.now) }
{
    let distances = all_distances(view);
    let chains = all_chains(view, &distances);
    Measured { distances, chains }
}
