// One obligation on two sides: each set of states that its outcome is told from is one read, and so are its ranks in a certificate. It knows no table.
#![tactic(auto)]

ghost use Rattle.std.specs.Prelude.{◌≡◌, ◌&&◌};
ghost use Rattle.lists.specs.Below.{some_below};
ghost use Rattle.words.specs.Bits.{has_bit};
ghost use Rattle.sides.specs.Side.{system_in, related_to};
ghost use Rattle.obligations.specs.CheckAnswers.{left_state, right_state, place_answer};
ghost use Rattle.obligations.specs.OnSides.{left_run, right_run, run_of, stutter_at, match_row};
ghost use Rattle.obligations.specs.OnSides.{serving_in, outcome_by_ranks, obligation_in};

use answers::{Answer, Which};
use certificates::Sizes;
use lists::{byte, part_of};
use outcomes::{Clause, Outcome, without_stutter};
use sides::{Side, View};
use tables::Head;

// Where the A ranks and the C ranks of a side begin in a certificate, and how many states the other side has. The widths are such that no sum of them
// is too large.
#[derive(Clone, Copy)]
pub struct Run {
    pub stutter: u32,
    pub matches: u32,
    pub states: u8,
}

// The ranks of a side: the certificate that they stand in, and where.
#[derive(Clone, Copy)]
pub struct Ranks<'a> {
    pub certificate: &'a [u8],
    pub run: Run,
}

// The ranks of two sides, which stand in one certificate.
#[derive(Clone, Copy)]
pub struct BothRanks<'a> {
    pub certificate: &'a [u8],
    pub left: Run,
    pub right: Run,
}

// A related pair, seen from a side: 0 left, 1 right. The side is a number, since the methods answer for every number.
#[derive(Clone, Copy)]
pub struct Place {
    pub side: usize,
    pub own: usize,
    pub other: usize,
}

impl Place {
    // The left state of the pair.
    pub fn left(self) -> usize
        ensures { result ≡ left_state self }
    {
        if self.side == 0 { self.own } else { self.other }
    }

    // Its right state.
    pub fn right(self) -> usize
        ensures { result ≡ right_state self }
    {
        if self.side == 0 { self.other } else { self.own }
    }

    // The answer with this code that names step j at the place.
    pub fn step_answer(self, code: usize, j: usize) -> Answer
        ensures { result ≡ place_answer self code j }
    {
        Answer {
            code,
            file: 2,
            a: self.side,
            b: self.left(),
            c: self.right(),
            d: j,
        }
    }
}

impl Run {
    // The runs of a side.
    pub fn of(sizes: Sizes, which: Which) -> Run
        ensures { result ≡ run_of which sizes }
    {
        // Read as numbers, which tells that the sizes are small, and so that both places fit.
        let n1 = sizes.n1 as usize;
        let n2 = sizes.n2 as usize;
        let runs = sizes.runs();
        let (stutter, matches, states) = match which {
            Which::Left => (runs.al, runs.cl, n2),
            Which::Right => (runs.ar, runs.cr, n1),
        };
        Run {
            stutter: stutter as u32,
            matches: matches as u32,
            states: states as u8,
        }
    }
}

impl<'a> Ranks<'a> {
    // The A rank of s at t; a state of 64 or more has rank 0.
    #[inline(always)]
    fn stutter_at(self, s: usize, t: usize) -> usize
        ensures { result ≡ stutter_at self.entry.certificate.now self.entry.run s t }
    {
        if Head::MAX_STATES <= s || Head::MAX_STATES <= t {
            return 0;
        }
        let at = self.run.stutter as usize;
        let n = self.run.states as usize;
        byte(self.certificate, at + (s * n + t))
    }

    // The certificate from the C ranks of step j on; a step of 256 or more has none.
    #[inline(always)]
    fn match_row(self, j: usize) -> &'a [u8]
        ensures { result.now ≡ match_row self.entry.certificate.now self.entry.run j }
    {
        let end = self.certificate.len();
        if Head::MAX_STEPS <= j {
            return part_of(self.certificate, end, end);
        }
        let at = self.run.matches as usize;
        let n = self.run.states as usize;
        part_of(self.certificate, at + j * n, end)
    }
}

impl<'a> BothRanks<'a> {
    // Where they stand in a certificate of these sizes.
    pub fn of(certificate: &'a [u8], sizes: Sizes) -> BothRanks<'a>
        ensures certificate { result.certificate.now ≡ certificate.now }
        ensures left { result.left ≡ left_run sizes }
        ensures right { result.right ≡ right_run sizes }
    {
        BothRanks {
            certificate,
            left: Run::of(sizes, Which::Left),
            right: Run::of(sizes, Which::Right),
        }
    }

    // The left side's.
    #[inline(always)]
    pub fn of_left(self) -> Ranks<'a>
        ensures certificate { result.certificate.now ≡ self.entry.certificate.now }
        ensures run { result.run ≡ self.entry.left }
    {
        Ranks {
            certificate: self.certificate,
            run: self.left,
        }
    }

    // The right side's.
    #[inline(always)]
    pub fn of_right(self) -> Ranks<'a>
        ensures certificate { result.certificate.now ≡ self.entry.certificate.now }
        ensures run { result.run ≡ self.entry.right }
    {
        Ranks {
            certificate: self.certificate,
            run: self.right,
        }
    }
}

// The smallest state that meets the obligation of our step j at t by 2a, if there is one.
#[inline(always)]
pub fn serving_state(view: View, j: usize, t: usize) -> Option<usize>
    ensures { result ≡ some_below 64 (serving_in view.entry.ours.now view.entry.theirs.now j t) }
{
    let target = view.ours.related(view.ours.to(j));
    let serving = view.theirs.entered_by(t, view.ours.key(j));
    let met = serving.intersect(target);
    met.smallest()
}

// Whether our step j, which enters u, stays at t: it is silent, and u and t are related.
#[inline(always)]
fn stays(ours: &Side, j: usize, u: usize, t: usize) -> bool
    ensures { result ≡ ((system_in ours.now).silent j && has_bit (related_to ours.now u) t) }
{
    ours.key(j) == 0 && ours.related(u).has(t)
}

// The outcome of the obligation of our step j at t where 2a does not hold, with the ranks that stand in the certificate.
#[inline(always)]
pub fn outcome_by_ranks(view: View, ranks: Ranks, j: usize, t: usize) -> Outcome
    ensures { result
        ≡ outcome_by_ranks view.entry.ours.now view.entry.theirs.now ranks.entry.certificate.now ranks.entry.run j t }
{
    let s = view.ours.from(j);
    let u = view.ours.to(j);
    let staying = stays(view.ours, j, u, t);
    if staying && ranks.stutter_at(u, t) < ranks.stutter_at(s, t) {
        return Outcome::Met(Clause::Stutter, t);
    }
    let quiet = view.theirs.silent(t);
    let ahead = quiet.intersect(view.ours.related(s));
    without_stutter(staying, ahead, ranks.match_row(j), t)
}

// The outcome of the obligation of our step j at t. Most are met by 2a, which looks at no rank.
pub fn obligation_at(view: View, ranks: Ranks, j: usize, t: usize) -> Outcome
    ensures { result
        ≡ obligation_in view.entry.ours.now view.entry.theirs.now ranks.entry.certificate.now ranks.entry.run j t }
{
    if let Some(state) = serving_state(view, j, t) {
        return Outcome::Met(Clause::Step, state);
    }
    outcome_by_ranks(view, ranks, j, t)
}
