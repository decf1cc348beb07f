// The second finder of match distances, by sets (document 02, Ask 10): for each of our steps the set of their states at which it is matched grows by rounds, and
// a state's distance is the round in which it came in.
#![tactic(auto)]

ghost use Rattle.std.specs.Prelude.{◌≡◌};
ghost use Rattle.lists.specs.Lists.{tabulate};
ghost use Rattle.bisimulation.specs.Maker.{distance};
ghost use Rattle.sides.specs.Side.{system_in};
ghost use Rattle.sides.specs.Views.{view_in};
ghost use Rattle.lengths.specs.Cells.{distance_table};
ghost use Rattle.match_sets.specs.Sets.{AfterRounds};
ghost use Rattle.match_sets.specs.Predecessors.{with_predecessor, Predecessors, ComeFrom, enters_by, EnterBy};
ghost use Rattle.match_sets.specs.Growing.{Newcomers, Marked};

use sides::{Side, View};
use tables::Head;
use words::Row;

// ---- predecessors

// Adds x to the word of y; a state of 64 or more has no word.
#[tactic(auto, unfolding(crate::specs::Predecessors::with_predecessor))]
fn add_predecessor(predecessors: &mut [u64; Head::MAX_STATES], y: usize, x: usize)
    ensures { predecessors.new ≡ with_predecessor predecessors.old y x }
{
    if y < Head::MAX_STATES {
        let states = Row(predecessors[y]);
        let more = states.add(x);
        predecessors[y] = more.0;
    }
}

// For each of their states the states from which a silent step enters it.
fn silent_predecessors(theirs: &Side) -> [u64; Head::MAX_STATES]
    ensures { Predecessors (system_in theirs.now) (system_in theirs.now).steps result }
{
    let mut predecessors = [0u64; Head::MAX_STATES];
    for e in 0..theirs.step_count() {
        if theirs.key(e) == 0 {
            add_predecessor(&mut predecessors, theirs.to(e), theirs.from(e));
        }
    }
    predecessors
}

// The states from which silent steps enter a state of the set, by the predecessors of each state.
fn predecessors_of(predecessors: &[u64; Head::MAX_STATES], set: Row) -> Row
    ensures { ComeFrom predecessors.now set.0 64 result.0 }
{
    let mut found = Row::empty();
    for y in set {
        found = found.union(Row(predecessors[y]));
    }
    found
}

// Whether their step e has this key and enters a state of the target.
#[tactic(auto, unfolding(crate::specs::Predecessors::enters_by))]
fn enters(theirs: &Side, by: usize, target: Row, e: usize) -> bool
    ensures { result ≡ enters_by theirs.now by target.0 e }
{
    theirs.key(e) == by && target.has(theirs.to(e))
}

// The states from which steps with this key enter a state of the target, by one pass over the steps.
fn keyed_predecessors(theirs: &Side, by: usize, target: Row) -> Row
    ensures { EnterBy theirs.now by target.0 (system_in theirs.now).steps result.0 }
{
    let mut found = Row::empty();
    for e in 0..theirs.step_count() {
        if enters(theirs, by, target, e) {
            found = found.add(theirs.from(e));
        }
    }
    found
}

// The states from which a step with this key enters a state of the target; for a silent step they are the predecessors of the target.
fn entering(theirs: &Side, predecessors: &[u64; Head::MAX_STATES], by: usize, target: Row) -> Row
    requires { Predecessors (system_in theirs.now) (system_in theirs.now).steps predecessors.now }
    ensures { EnterBy theirs.now by target.0 (system_in theirs.now).steps result.0 }
{
    if by == 0 {
        return predecessors_of(predecessors, target);
    }
    keyed_predecessors(theirs, by, target)
}

// ---- the set of a step

// The set with which our step j begins: their states related to the one that it leaves, at which it is matched with no step inside.
fn first_set(view: View, predecessors: &[u64; Head::MAX_STATES], j: usize) -> Row
    requires { Predecessors (system_in view.theirs.now) (system_in view.theirs.now).steps predecessors.now }
    ensures { AfterRounds (view_in view.entry.ours.now view.entry.theirs.now) j 0 result.0 }
{
    let candidates = view.ours.related(view.ours.from(j));
    let target = view.ours.related(view.ours.to(j));
    let near = entering(view.theirs, predecessors, view.ours.key(j), target);
    near.intersect(candidates)
}

// The states that come into the set with a round: related, not in it yet, with a silent step into one that came in last.
fn newcomers(predecessors: &[u64; Head::MAX_STATES], candidates: Row, set: Row, fresh: Row) -> Row
    ensures { Newcomers predecessors.now candidates.0 set.0 fresh.0 result.0 }
{
    let near = predecessors_of(predecessors, fresh);
    let inside = near.intersect(candidates);
    inside.without(set)
}

// Puts a value into the row at each state of the set.
fn mark(row: &mut [u8; Head::MAX_STATES], set: Row, value: u8)
    ensures { Marked set.0 64 value row.old row.new }
{
    for t in set {
        row[t] = value;
    }
}

// The match distances of our step j at each of their states: the round in which the state comes into the set, and their number of states where it never does.
// The set is done when it stops growing.
fn step_distances(
    view: View,
    predecessors: &[u64; Head::MAX_STATES],
    j: usize,
) -> [u8; Head::MAX_STATES]
    requires { Predecessors (system_in view.theirs.now) (system_in view.theirs.now).steps predecessors.now }
    ensures { result ≡ tabulate 64 (distance (view_in view.entry.ours.now view.entry.theirs.now) j) }
{
    let n = view.theirs.states();
    let candidates = view.ours.related(view.ours.from(j));
    let mut row = [n as u8; Head::MAX_STATES];
    let mut set = first_set(view, predecessors, j);
    let mut fresh = set;
    let mut k: usize = 0;
    while !fresh.is_empty() {
        // The sides of two tables need fewer rounds than there are states; words that no table gives may need more.
        mark(&mut row, fresh, k.min(n) as u8);
        fresh = newcomers(predecessors, candidates, set, fresh);
        set = set.union(fresh);
        k += 1;
    }
    row
}

// The match distances of all our steps, row by row: that of step j at t stands at 64 j + t. Past the last step the rows stay zeros.
pub fn distances(view: View) -> [u8; Head::MAX_STEPS * Head::MAX_STATES]
    ensures { result ≡ distance_table (view_in view.entry.ours.now view.entry.theirs.now) }
{
    let predecessors = silent_predecessors(view.theirs);
    let mut at = [0u8; Head::MAX_STEPS * Head::MAX_STATES];
    for j in 0..view.ours.step_count() {
        let a = j * Head::MAX_STATES;
        let row = step_distances(view, &predecessors, j);
        at[a..a + Head::MAX_STATES].copy_from_slice(&row);
    }
    at
}
