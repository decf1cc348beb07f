// The maker's examination of a relation: the starts, the pairs with their labels and steps, and the chains. It reads two sides and the tables of their
// lengths, and writes nothing.
#![tactic(auto)]

ghost use Rattle.std.specs.Prelude.{◌≡◌, ◌<◌};
ghost use Rattle.lists.specs.Below.{found_below};
ghost use Rattle.answers.specs.Numbers.{which_number};
ghost use Rattle.answers.specs.Verdicts.{first_in};
ghost use Rattle.sides.specs.Side.{system_in, steps_in};
ghost use Rattle.sides.specs.Views.{view_in};
ghost use Rattle.obligations.specs.OnSides.{checks_in};
ghost use Rattle.examination.specs.OnSides.{kept_by, long_by, verdict_in, chains_in, examined_in};
ghost use Rattle.examination.specs.Walk.{step_verdict_in, pair_in, row_in};

use answers::{Answer, Which};
use lists::byte;
use obligations::Place;
use sides::View;
use starts::check_starts;
use tables::Head;

// The match distances of the steps of a side, and the lengths of its chains, in rows of 64; past an end stand zeros.
#[derive(Clone, Copy)]
pub struct Lengths<'a> {
    pub distances: &'a [u8],
    pub chains: &'a [u8],
}

// Whether our step j may be kept at t: it is matched there by the table of distances, or it stays.
fn is_kept(view: View, distances: &[u8], j: usize, t: usize) -> bool
    requires { (j < 256) × (t < 64) }
    ensures { result ≡ kept_by (view_in view.entry.ours.now view.entry.theirs.now) distances.now j t }
{
    byte(distances, j * Head::MAX_STATES + t) < view.theirs.states()
        || view.ours.key(j) == 0 && view.ours.related(view.ours.to(j)).has(t)
}

// Our steps from the place's own state, in the order of their links.
fn check_steps(view: View, distances: &[u8], place: Place) -> Result<(), Answer>
    requires { place.other < 64 }
    ensures { result ≡ first_in (step_verdict_in view.entry.ours.now view.entry.theirs.now distances.now place) (steps_in view.entry.ours.now place.own) }
{
    for j in view.ours.steps_from(place.own) {
        if !is_kept(view, distances, j, place.other) {
            return Err(place.step_answer(22, j));
        }
    }
    Ok(())
}

// The pair s, t: the labels, then our steps from s, then their steps from t.
fn check_pair(
    view: View,
    distances: &[u8],
    distances2: &[u8],
    s: usize,
    t: usize,
) -> Result<(), Answer>
    requires { (s < 64) × (t < 64) }
    ensures { result ≡ pair_in view.entry.ours.now view.entry.theirs.now distances.now distances2.now s t }
{
    if view.ours.label(s) != view.theirs.label(t) {
        return Err(Answer {
            code: 17,
            file: 2,
            a: s,
            b: t,
            c: 0,
            d: 0,
        });
    }
    let left = Place {
        side: 0,
        own: s,
        other: t,
    };
    let right = Place {
        side: 1,
        own: t,
        other: s,
    };
    check_steps(view, distances, left)?;
    check_steps(view.turned(), distances2, right)
}

// Our state s with the states related to it, in rising order.
fn check_row(view: View, distances: &[u8], distances2: &[u8], s: usize) -> Result<(), Answer>
    requires { s < 64 }
    ensures { result ≡ row_in view.entry.ours.now view.entry.theirs.now distances.now distances2.now s }
{
    let n = view.theirs.states();
    for t in view.ours.related(s) {
        if n <= t {
            break;
        }
        check_pair(view, distances, distances2, s, t)?;
    }
    Ok(())
}

// All related pairs.
fn check_pairs(view: View, distances: &[u8], distances2: &[u8]) -> Result<(), Answer>
    ensures { result ≡ first_in (verdict_in view.entry.ours.now view.entry.theirs.now distances.now distances2.now)
        (checks_in view.entry.ours.now view.entry.theirs.now) }
{
    for s in 0..view.ours.states() {
        check_row(view, distances, distances2, s)?;
    }
    Ok(())
}

// Whether their state c is related to our fixed state b, and its chain at b has as many steps as they have states.
fn is_long(view: View, chains: &[u8], b: usize, c: usize) -> bool
    requires { (b < 64) × (c < 64) }
    ensures { result ≡ long_by (view_in view.entry.ours.now view.entry.theirs.now) chains.now b c }
{
    view.ours.related(b).has(c) && view.theirs.states() <= byte(chains, b * Head::MAX_STATES + c)
}

// Their first state whose chain at our state b is too long, if there is one.
fn first_long(view: View, chains: &[u8], b: usize) -> Option<usize>
    requires { b < 64 }
    ensures { result ≡ found_below (system_in view.entry.theirs.now).states (long_by (view_in view.entry.ours.now view.entry.theirs.now) chains.now b) }
{
    for c in 0..view.theirs.states() {
        if is_long(view, chains, b, c) {
            return Some(c);
        }
    }
    None
}

// Their chains at our states; they are the side named.
fn check_chains(view: View, chains: &[u8], side: Which) -> Result<(), Answer>
    ensures { result ≡ chains_in view.entry.ours.now view.entry.theirs.now (which_number side) chains.now }
{
    for b in 0..view.ours.states() {
        if let Some(c) = first_long(view, chains, b) {
            return Err(Answer {
                code: 23,
                file: 2,
                a: usize::from(side),
                b,
                c,
                d: 0,
            });
        }
    }
    Ok(())
}

// The examination of two sides: `lengths` has the match distances and the chain lengths of our steps, and `lengths2` those of theirs.
pub fn examine(view: View, lengths: Lengths, lengths2: Lengths) -> Result<(), Answer>
    ensures { result ≡ examined_in view.entry.ours.now view.entry.theirs.now lengths.entry.distances.now lengths2.entry.distances.now
        lengths.entry.chains.now lengths2.entry.chains.now }
{
    check_starts(view)?;
    check_pairs(view, lengths.distances, lengths2.distances)?;
    check_chains(view.turned(), lengths.chains, Which::Left)?;
    check_chains(view, lengths2.chains, Which::Right)
}
