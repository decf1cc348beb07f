// The starts rule on two sides: each start of either is related to some start of the other. The sets of starts and of related states are words.
#![tactic(auto)]

ghost use Rattle.std.specs.Prelude.{◌≡◌};
ghost use Rattle.answers.specs.Numbers.{which_number};
ghost use Rattle.sides.specs.Side.{start_in};
ghost use Rattle.starts.specs.StartsNamed.{both_starts};
ghost use Rattle.starts.specs.StartsVerdict.{unpaired_verdict, view_by_theirs, starts_as, starts_in};
ghost use Rattle.starts.specs.Unpairing.{UnpairedWord};

use answers::{Answer, Which};
use sides::View;
use words::Row;

// The starts of ours that are related to none of theirs.
fn unpaired(view: View) -> Row
    ensures { UnpairedWord view.entry.ours.now view.entry.theirs.now result.0 }
{
    let n = view.theirs.states();
    let mut alone = view.ours.initial();
    for t in view.theirs.initial() {
        if n <= t {
            break;
        }
        alone = alone.without(view.theirs.related(t));
    }
    alone
}

// Whether each start of ours is related to some of theirs: 16 for the first that is not. We are the side named.
fn check_paired(view: View, side: Which) -> Result<(), Answer>
    ensures { result ≡ unpaired_verdict (view_by_theirs view.entry.ours.now view.entry.theirs.now) (which_number side) }
{
    let alone = unpaired(view);
    match alone.smallest() {
        Some(s) if s < view.ours.states() => Err(Answer {
            code: 16,
            file: 2,
            a: usize::from(side),
            b: s,
            c: 0,
            d: 0,
        }),
        _ => Ok(()),
    }
}

// Whether the two starts are related: 16 where they are not. The start of a side is its smallest initial state, and 64 where it has none.
fn check_both(view: View) -> Result<(), Answer>
    ensures { result ≡ starts_as view.entry.ours.now view.entry.theirs.now (both_starts (start_in view.entry.ours.now) (start_in view.entry.theirs.now)) }
{
    let s = view.ours.initial().first();
    let t = view.theirs.initial().first();
    if view.ours.related(s).has(t) {
        return Ok(());
    }
    Err(Answer {
        code: 16,
        file: 2,
        a: s,
        b: t,
        c: 0,
        d: 0,
    })
}

// The starts rule: each left start is related to some right start, and each right start to some left one. 16 where it fails, named by the side and the
// first unpaired start where either table has a start word, left side first, and otherwise by the two starts.
pub fn check_starts(view: View) -> Result<(), Answer>
    ensures { result ≡ starts_in view.entry.ours.now view.entry.theirs.now }
{
    if view.ours.has_start_word() || view.theirs.has_start_word() {
        check_paired(view, Which::Left)?;
        return check_paired(view.turned(), Which::Right);
    }
    check_both(view)
}
