// All checks of two sides in judging order: the obligations counted by the clause that meets them, or the first refusal. An obligation costs a few
// instructions, and no list of steps is searched for one.
#![tactic(auto)]

ghost use Rattle.std.specs.Prelude.{◌≡◌, [], ◌∷◌, ◌^◌, ◌<◌};
ghost use Rattle.sweeps.specs.Tallies.{none, add_to, total};
ghost use Rattle.sweeps.specs.SideVerdicts.{progress, step_in, swept, pair_verdicts, row_verdicts, all_verdicts};

use answers::Answer;
use obligations::{BothRanks, Place, Ranks, outcome_by_ranks, serving_state};
use outcomes::{Clause, Outcome};
use sides::View;
use tables::Head;

// How many obligations each clause has met.
#[derive(Clone, Copy)]
pub struct Tally {
    pub steps: usize,
    pub stutters: usize,
    pub matches: usize,
}

impl Tally {
    fn add(self, clause: Clause) -> Tally
        requires { total self < 2 ^ 32 }
        ensures { result ≡ add_to self clause }
    {
        match clause {
            Clause::Step => Tally {
                steps: self.steps + 1,
                ..self
            },
            Clause::Stutter => Tally {
                stutters: self.stutters + 1,
                ..self
            },
            Clause::Match => Tally {
                matches: self.matches + 1,
                ..self
            },
        }
    }
}

// The obligation of our step j at the place: counted by the clause that meets it, or the answer that refuses it. Most are met by 2a, which looks at no rank.
#[inline(always)]
fn check_step(
    view: View,
    ranks: Ranks,
    place: Place,
    j: usize,
    tally: Tally,
) -> Result<Tally, Answer>
    requires { total tally < 2 ^ 32 }
    ensures { result
        ≡ progress (step_in view.entry.ours.now view.entry.theirs.now ranks.entry.certificate.now ranks.entry.run place j ∷ []) tally }
{
    let t = place.other;
    if serving_state(view, j, t).is_some() {
        return Ok(tally.add(Clause::Step));
    }
    match outcome_by_ranks(view, ranks, j, t) {
        Outcome::Met(clause, _) => Ok(tally.add(clause)),
        Outcome::Failed(failure) => Err(place.step_answer(usize::from(failure), j)),
    }
}

// The obligations of our steps from the place's own state, in the order in which the links lead along them.
#[inline(always)]
fn sweep(view: View, ranks: Ranks, place: Place, tally: Tally) -> Result<Tally, Answer>
    requires { total tally < 2 ^ 31 }
    ensures { result
        ≡ progress (swept view.entry.ours.now view.entry.theirs.now ranks.entry.certificate.now ranks.entry.run place) tally }
{
    let mut met = tally;
    for j in view.ours.steps_from(place.own) {
        met = check_step(view, ranks, place, j, met)?;
    }
    Ok(met)
}

// The checks of the related pair s, t: the labels, then the left steps from s, then the right steps from t.
fn check_pair(
    view: View,
    ranks: BothRanks,
    s: usize,
    t: usize,
    tally: Tally,
) -> Result<Tally, Answer>
    requires { total tally < 2 ^ 30 }
    ensures { result
        ≡ progress (pair_verdicts view.entry.ours.now view.entry.theirs.now ranks.entry.certificate.now ranks.entry.left ranks.entry.right s t) tally }
{
    if view.ours.label(s) != view.theirs.label(t) {
        return Err(Answer {
            code: 17,
            file: 2,
            a: s,
            b: t,
            c: 0,
            d: 0,
        });
    }
    let left = ranks.of_left();
    let from_s = Place {
        side: 0,
        own: s,
        other: t,
    };
    let met = sweep(view, left, from_s, tally)?;
    let turned = view.turned();
    let right = ranks.of_right();
    let from_t = Place {
        side: 1,
        own: t,
        other: s,
    };
    sweep(turned, right, from_t, met)
}

// The checks of the left state s with the states related to it, in rising order.
fn check_row(view: View, ranks: BothRanks, s: usize, tally: Tally) -> Result<Tally, Answer>
    requires { total tally < 2 ^ 29 }
    ensures { result
        ≡ progress (row_verdicts view.entry.ours.now view.entry.theirs.now ranks.entry.certificate.now ranks.entry.left ranks.entry.right s) tally }
{
    let n = view.theirs.states();
    let mut met = tally;
    for t in view.ours.related(s) {
        if n <= t {
            return Ok(met);
        }
        met = check_pair(view, ranks, s, t, met)?;
    }
    Ok(met)
}

// All checks after the starts, in judging order: what was counted, or the first answer that refuses.
pub fn check_all(view: View, ranks: BothRanks) -> Result<Tally, Answer>
    ensures { result
        ≡ progress (all_verdicts view.entry.ours.now view.entry.theirs.now ranks.entry.certificate.now ranks.entry.left ranks.entry.right) none }
{
    let mut met = Tally {
        steps: 0,
        stutters: 0,
        matches: 0,
    };
    for s in 0..view.ours.states() {
        met = check_row(view, ranks, s, met)?;
    }
    Ok(met)
}
