// The listing on bytes: where the judge accepts, one line for each obligation, with the clause that meets it and the state that answers; else the judge's
// six numbers. The walk follows the judging order, and every line is put into the one output that is lent.
#![tactic(auto)]

ghost use Rattle.std.specs.Prelude.{◌≡◌, ◌+◌, ◌≤◌, length};
ghost use Rattle.texts.specs.Texts.{most_text};
ghost use Rattle.texts.specs.Wrote.{Wrote};
ghost use Rattle.checker.specs.Judge.{judge_answer};
ghost use Rattle.lister.specs.Listing.{printed};
ghost use Rattle.lister.specs.OnSides.{step_text, steps_text, pair_text, row_text, all_text};

use certified_sides::sides_of;
use checker::judge;
use obligations::{BothRanks, Place, Ranks, obligation_at};
use outcomes::Outcome;
use sides::View;
use texts::{put_answer, put_six};

// The most bytes that are printed, 32,768 lines of 17 bytes, and room for one line more of whatever numbers.
pub const MOST: usize = 557182;

// Puts the line of our step j at the place, if its obligation is met, and answers where it ends.
fn list_step(
    view: View,
    ranks: Ranks,
    place: Place,
    j: usize,
    output: &mut [u8],
    at: usize,
) -> usize
    requires { at + most_text ≤ length output.old }
    ensures { Wrote (step_text view.entry.ours.now view.entry.theirs.now ranks.entry.certificate.now ranks.entry.run place j) at result
        output.old output.new }
{
    let Outcome::Met(clause, state) = obligation_at(view, ranks, j, place.other) else {
        return at;
    };
    put_six(
        place.side,
        place.left(),
        place.right(),
        j,
        usize::from(clause),
        state,
        output,
        at,
    )
}

// Puts the lines of our steps from the place's own state, in the order in which the links lead along them.
fn list_steps(view: View, ranks: Ranks, place: Place, output: &mut [u8], at: usize) -> usize
    requires { at + length (steps_text view.ours.now view.theirs.now ranks.certificate.now ranks.run place) + most_text ≤ length output.old }
    ensures { Wrote (steps_text view.entry.ours.now view.entry.theirs.now ranks.entry.certificate.now ranks.entry.run place) at result
        output.old output.new }
{
    let mut end = at;
    for j in view.ours.steps_from(place.own) {
        end = list_step(view, ranks, place, j, output, end);
    }
    end
}

// Puts the lines of the pair s, t: of the left steps from s, then of the right steps from t; none where the two are not related.
fn list_pair(
    view: View,
    ranks: BothRanks,
    s: usize,
    t: usize,
    output: &mut [u8],
    at: usize,
) -> usize
    requires { at + length (pair_text view.ours.now view.theirs.now ranks.certificate.now ranks.left ranks.right s t) + most_text
        ≤ length output.old }
    ensures { Wrote
        (pair_text view.entry.ours.now view.entry.theirs.now ranks.entry.certificate.now ranks.entry.left ranks.entry.right s t) at result
        output.old output.new }
{
    let states_of = view.ours.related(s);
    if !states_of.has(t) {
        return at;
    }
    let left = ranks.of_left();
    let from_s = Place {
        side: 0,
        own: s,
        other: t,
    };
    let turned = view.turned();
    let right = ranks.of_right();
    let from_t = Place {
        side: 1,
        own: t,
        other: s,
    };
    let end = list_steps(view, left, from_s, output, at);
    list_steps(turned, right, from_t, output, end)
}

// Puts the lines of the left state s with the right states in rising order.
fn list_row(view: View, ranks: BothRanks, s: usize, output: &mut [u8], at: usize) -> usize
    requires { at + length (row_text view.ours.now view.theirs.now ranks.certificate.now ranks.left ranks.right s) + most_text
        ≤ length output.old }
    ensures { Wrote
        (row_text view.entry.ours.now view.entry.theirs.now ranks.entry.certificate.now ranks.entry.left ranks.entry.right s) at result
        output.old output.new }
{
    let mut end = at;
    for t in 0..view.theirs.states() {
        end = list_pair(view, ranks, s, t, output, end);
    }
    end
}

// Puts the lines of all left states in rising order.
fn list_all(view: View, ranks: BothRanks, output: &mut [u8], at: usize) -> usize
    requires { at + length (all_text view.ours.now view.theirs.now ranks.certificate.now ranks.left ranks.right) + most_text
        ≤ length output.old }
    ensures { Wrote
        (all_text view.entry.ours.now view.entry.theirs.now ranks.entry.certificate.now ranks.entry.left ranks.entry.right) at result
        output.old output.new }
{
    let mut end = at;
    for s in 0..view.ours.states() {
        end = list_row(view, ranks, s, output, end);
    }
    end
}

// Puts the lines of three files that the judge accepts.
fn list_accepted(left: &[u8], right: &[u8], certificate: &[u8], output: &mut [u8]) -> usize
    requires certificate_value { (judge_answer left.now right.now certificate.now).code ≡ 0 }
    requires output_len { length output.old ≡ 557182 }
    ensures fits { result ≤ length output.new }
    ensures text { Wrote (printed left.now right.now certificate.now) 0 result
        output.old output.new }
{
    let sides = sides_of(left, right, certificate);
    let view = View {
        ours: &sides.ours,
        theirs: &sides.theirs,
    };
    list_all(view, BothRanks::of(certificate, sides.sizes), output, 0)
}

// Puts what the program prints for three byte strings, and answers how many bytes that are: where the judge accepts, the line of each obligation in judging
// order, else the judge's six numbers.
pub fn list(left: &[u8], right: &[u8], certificate: &[u8], output: &mut [u8; MOST]) -> usize
    ensures fits { result ≤ length output.new }
    ensures text { Wrote (printed left.now right.now certificate.now) 0 result
        output.old output.new }
{
    let places: &mut [u8] = output;
    let answer = judge(left, right, certificate);
    if answer.code != 0 {
        return put_answer(answer, places, 0);
    }
    list_accepted(left, right, certificate, places)
}
