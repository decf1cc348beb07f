// The outcome of one obligation, document 01's duty: an own step from s to u, at a state t of the other side that is related to s. It is told from words,
// so it costs a few instructions. The caller hands over the sets of states: nothing here knows which side is which, or how steps are told apart.
#![tactic(auto)]

ghost use Rattle.std.specs.Prelude.{◌≡◌};
ghost use Rattle.lists.specs.Below.{some_below};
ghost use Rattle.outcomes.specs.Obligation.{first_falling, without_stutter, clause_number, failure_number};

use lists::byte;
use words::Row;

// The clause that meets an obligation: 2a, 2b or 2c.
#[derive(Clone, Copy, PartialEq, Eq)]
pub enum Clause {
    Step,
    Stutter,
    Match,
}

// Why an obligation fails, document 01's cause: 18 or 19.
#[derive(Clone, Copy, PartialEq, Eq)]
pub enum Failure {
    Apart,
    Rank,
}

// The outcome of an obligation: the clause that meets it, with the smallest state of the other side that serves, or why it fails.
// An enum of its own: the product's forms ask for one whose cases are named so (docs/DECISIONS.md 14).
#[derive(Clone, Copy, PartialEq, Eq)]
pub enum Outcome {
    Met(Clause, usize),
    Failed(Failure),
}

// The clause's number: 1, 2 or 3.
impl From<Clause> for usize {
    ghost from_gives = { λ clause number. number ≡ clause_number clause };

    fn from(clause: Clause) -> usize {
        match clause {
            Clause::Step => 1,
            Clause::Stutter => 2,
            Clause::Match => 3,
        }
    }
}

// The failure's number: 18 or 19.
impl From<Failure> for usize {
    ghost from_gives = { λ failure number. number ≡ failure_number failure };

    fn from(failure: Failure) -> usize {
        match failure {
            Failure::Apart => 18,
            Failure::Rank => 19,
        }
    }
}

// The smallest state of the set at which the rank is below that at t, if there is one.
fn falling_state(set: Row, ranks: &[u8], t: usize) -> Option<usize>
    ensures { result ≡ some_below 64 (first_falling set.0 ranks.now t) }
{
    let here = byte(ranks, t);
    for v in set {
        if byte(ranks, v) < here {
            return Some(v);
        }
    }
    None
}

// The outcome where neither 2a nor 2b holds: 2c, else the failure. `stays` says whether the step is silent and u, t are related; `ahead` has the states related
// to s that silent steps from t enter, and `ranks` the C ranks of this step at each state of the other side.
pub fn without_stutter(stays: bool, ahead: Row, ranks: &[u8], t: usize) -> Outcome
    ensures { result ≡ without_stutter stays ahead.0 ranks.now t }
{
    if let Some(state) = falling_state(ahead, ranks, t) {
        return Outcome::Met(Clause::Match, state);
    }
    if stays || !ahead.is_empty() {
        return Outcome::Failed(Failure::Rank);
    }
    Outcome::Failed(Failure::Apart)
}
