// A run followed on the other model, of tables without keys. It goes by the judge's clauses in order, 2a, then 2b, then 2c, the smallest state each time; a
// new block begins at each 2a. What it finds is kept until both outputs are known to have room, so that a refusal leaves them as they were.
#![tactic(auto)]

ghost use Rattle.std.specs.Prelude.{◌≡◌, ◌+◌, ◌*◌, ◌≤◌, ◌<◌, length, take, drop};
ghost use mathlib.Core.List.{◌++◌, flat_map};
ghost use Rattle.lists.specs.Below.{some_below};
ghost use Rattle.lists.specs.Numbers.{byte_at, big_bytes};
ghost use Rattle.answers.specs.Numbers.{six_numbers};
ghost use Rattle.answers.specs.Verdicts.{answer_of, output_after};
ghost use Rattle.words.specs.Bits.{first_bit};
ghost use Rattle.sides.specs.Side.{system_in, silent_from};
ghost use Rattle.sides.specs.Built.{PlainSide};
ghost use Rattle.sides.specs.Views.{view_in};
ghost use Rattle.table_reader.specs.declared.Known.TheVariants.{Plain};
ghost use Rattle.checker.specs.Judge.{judge_known};
ghost use Rattle.path_matcher.specs.Following.{entry_bytes, block_bytes, wrong_path, follow_answer, follow_states, follow_blocks};
ghost use Rattle.path_matcher.specs.OnSides.{step_between, ranks_in, given_in, matched_in, verdict_in};
ghost use Rattle.path_matcher.specs.OnSides.{AllMet, StartsAt, StandsAt, next_move};

use answers::Answer;
use certified_sides::sides_of;
use checker::judge_known;
use lists::{byte, part_of, put_be, put_front};
use obligations::{BothRanks, Ranks, obligation_at};
use outcomes::{Clause, Outcome};
use sides::{Side, View};
use table_reader::Known;
use tables::Head;

// The most states that are given, and the most that are written: as many as a table has in each block.
const MOST_GIVEN: usize = 256;

const MOST_STATES: usize = MOST_GIVEN * Head::MAX_STATES;

// How the matching path goes on: into a new block, as the given path does; not at all, while the given path goes on inside its block; inside its block,
// while the given path stays; or no more.
#[derive(Drop)]
enum Move {
    Enter(usize),
    Stay,
    Push(usize),
    End,
}

// A refusal, which names nothing but its file.
fn refusal(code: usize, file: usize) -> Answer
    ensures { result ≡ six_numbers code file 0 }
{
    Answer {
        code,
        file,
        a: 0,
        b: 0,
        c: 0,
        d: 0,
    }
}

// ---- the given path

// The step from state i of the path to the next, if there is one.
fn step_after(side: &Side, path: &[u8], i: usize) -> Option<usize>
    requires { i < length path.now }
    ensures { result ≡ some_below 256 (step_between side.now (byte_at path.now i) (byte_at path.now (i + 1))) }
{
    let s = byte(path, i);
    let u = byte(path, i + 1);
    for j in side.steps_from(s) {
        if side.to(j) == u {
            return Some(j);
        }
    }
    None
}

// Whether the bytes are no path of the side's table, which begins anywhere and has from 1 to 256 states.
fn is_no_path(side: &Side, path: &[u8]) -> bool
    requires { PlainSide side.now }
    ensures { result ≡ wrong_path 0 (system_in side.now) path.now }
{
    let count = path.len();
    if count == 0 || MOST_GIVEN < count {
        return true;
    }
    let n = side.states();
    let mut s = byte(path, 0);
    if n <= s {
        return true;
    }
    for i in 1..count {
        let after = side.silent(s);
        s = byte(path, i);
        if !after.has(s) || n <= s {
            return true;
        }
    }
    false
}

// ---- what is written

// Writes a block's number over the two bytes of given state i.
fn put_number(block: usize, output: &mut [u8], i: usize)
    requires { 2 * i + 2 ≤ length output.old }
    ensures { output.new ≡ take (2 * i) output.old ++ big_bytes 2 block ++ drop (2 * i + 2) output.old }
{
    put_be(output, 2 * i, 2, block as u64);
}

// Writes a state and its block's number over the three bytes of written state i.
fn put_entry(state: usize, block: usize, output: &mut [u8], i: usize)
    requires { (state < 256) × (3 * i + 3 ≤ length output.old) }
    ensures { output.new
        ≡ take (3 * i) output.old ++ entry_bytes (record { state = state; block = block }) ++ drop (3 * i + 3) output.old }
{
    let at = 3 * i;
    output[at] = state as u8;
    put_be(output, at + 1, 2, block as u64);
}

// ---- the matching path

// The smallest state that a step from s enters, if a step leaves s.
fn smallest_after(side: &Side, s: usize) -> Option<usize>
    ensures { result ≡ some_below 64 (first_bit (silent_from side.now s)) }
{
    let states = side.silent(s);
    states.smallest()
}

// How it goes on from their state, beside state `place` of the path, from which the step goes to the next: by the obligation's outcome; and where the given
// path has ended in a terminal state, to the smallest state that a step enters.
fn next_move(
    view: View,
    ranks: Ranks,
    path: &[u8],
    place: usize,
    state: usize,
    step: Option<usize>,
) -> Move
    requires all_met { AllMet view.ours.now view.theirs.now ranks.certificate.now ranks.run }
    requires stands_at { StandsAt view.ours.now view.theirs.now path.now place state step }
    ensures { result ≡ next_move (view_in view.entry.ours.now view.entry.theirs.now) (ranks_in ranks.entry.certificate.now ranks.entry.run)
        path.now place state }
{
    if place < path.len() - 1 {
        // A path has a step from each of its states to the next.
        let Some(j) = step else {
            return Move::End;
        };
        // In an accepted certificate every obligation is met.
        let Outcome::Met(clause, x) = obligation_at(view, ranks, j, state) else {
            return Move::End;
        };
        return match clause {
            Clause::Step => Move::Enter(x),
            Clause::Stutter => Move::Stay,
            Clause::Match => Move::Push(x),
        };
    }
    if smallest_after(view.ours, byte(path, place)).is_some() {
        return Move::End;
    }
    match smallest_after(view.theirs, state) {
        Some(x) => Move::Push(x),
        None => Move::End,
    }
}

// Follows the path of our side from their state `start` on: the states that match it go to the front of `found`, the block numbers of the given ones to the
// front of `numbers`, and how many states match it is answered.
fn follow_path(
    view: View,
    ranks: Ranks,
    start: usize,
    path: &[u8],
    found: &mut [u8; 3 * MOST_STATES],
    numbers: &mut [u8; 2 * MOST_GIVEN],
) -> usize
    requires all_met { AllMet view.ours.now view.theirs.now ranks.certificate.now ranks.run }
    requires starts_at { StartsAt view.ours.now view.theirs.now path.now start }
    ensures count { result ≡ length
        (matched_in view.entry.ours.now view.entry.theirs.now ranks.entry.certificate.now ranks.entry.run path.now start) }
    ensures small { result ≤ 16384 }
    ensures long { (length found.new ≡ 49152) × (length numbers.new ≡ 512) }
    ensures states { take (3 * result) found.new ≡ flat_map entry_bytes
        (matched_in view.entry.ours.now view.entry.theirs.now ranks.entry.certificate.now ranks.entry.run path.now start) }
    ensures blocks { take (2 * length path.now) numbers.new ≡ flat_map block_bytes
        (given_in view.entry.ours.now view.entry.theirs.now ranks.entry.certificate.now ranks.entry.run path.now start) }
{
    let matching: &mut [u8] = found;
    let blocks: &mut [u8] = numbers;
    put_entry(start, 0, matching, 0);
    put_number(0, blocks, 0);
    let mut place: usize = 0;
    let mut state = start;
    let mut block: usize = 0;
    let mut count: usize = 1;
    let mut step = step_after(view.ours, path, 0);
    loop {
        let next = next_move(view, ranks, path, place, state, step);
        match next {
            Move::Enter(x) => {
                place += 1;
                block += 1;
                put_number(block, blocks, place);
                put_entry(x, block, matching, count);
                count += 1;
                state = x;
                step = step_after(view.ours, path, place);
            }
            Move::Stay => {
                place += 1;
                put_number(block, blocks, place);
                step = step_after(view.ours, path, place);
            }
            Move::Push(x) => {
                put_entry(x, block, matching, count);
                count += 1;
                state = x;
            }
            Move::End => {
                return count;
            }
        }
    }
}

// Follows a path of our side: 25, 26 or 27, or the matching path and the block numbers of the given states over the fronts of the two outputs.
fn follow_sides(
    view: View,
    ranks: Ranks,
    start: usize,
    path: &[u8],
    states: &mut [u8],
    blocks: &mut [u8],
) -> Answer
    requires { AllMet view.ours.now view.theirs.now ranks.certificate.now ranks.run }
    ensures value { result ≡ answer_of (six_numbers 0 0)
        (verdict_in view.entry.ours.now view.entry.theirs.now ranks.entry.certificate.now ranks.entry.run start path.now
        states.old blocks.old) }
    ensures states { states.new ≡ output_after
        (verdict_in view.entry.ours.now view.entry.theirs.now ranks.entry.certificate.now ranks.entry.run start path.now
        states.old blocks.old)
        (flat_map entry_bytes
        (matched_in view.entry.ours.now view.entry.theirs.now ranks.entry.certificate.now ranks.entry.run path.now start))
        states.old }
    ensures blocks { blocks.new ≡ output_after
        (verdict_in view.entry.ours.now view.entry.theirs.now ranks.entry.certificate.now ranks.entry.run start path.now
        states.old blocks.old)
        (flat_map block_bytes
        (given_in view.entry.ours.now view.entry.theirs.now ranks.entry.certificate.now ranks.entry.run path.now start))
        blocks.old }
{
    if is_no_path(view.ours, path) {
        return refusal(25, 4);
    }
    let starts = view.ours.related(byte(path, 0));
    if !starts.has(start) {
        return refusal(26, 4);
    }
    let mut found: [u8; 3 * MOST_STATES] = [0; 3 * MOST_STATES];
    let mut numbers: [u8; 2 * MOST_GIVEN] = [0; 2 * MOST_GIVEN];
    let count = follow_path(view, ranks, start, path, &mut found, &mut numbers);
    if states.len() < 3 * count {
        return refusal(27, 3);
    }
    if blocks.len() < 2 * path.len() {
        return refusal(27, 3);
    }
    put_front(part_of(&found, 0, 3 * count), states);
    put_front(part_of(&numbers, 0, 2 * path.len()), blocks);
    Answer {
        code: 0,
        file: 0,
        a: count,
        b: 0,
        c: 0,
        d: 0,
    }
}

// Follows a path of two tables without keys and a certificate that the judge accepts.
fn follow_accepted(
    left: &[u8],
    right: &[u8],
    certificate: &[u8],
    side: usize,
    start: usize,
    path: &[u8],
    states: &mut [u8],
    blocks: &mut [u8],
) -> Answer
    requires { (judge_known Plain left.now right.now certificate.now).code ≡ 0 }
    ensures value { result ≡ follow_answer left.now right.now certificate.now side start path.now
        states.old blocks.old }
    ensures states { states.new ≡ follow_states left.now right.now certificate.now side start
        path.now states.old blocks.old }
    ensures blocks { blocks.new ≡ follow_blocks left.now right.now certificate.now side start
        path.now states.old blocks.old }
{
    let sides = sides_of(left, right, certificate);
    let view = View {
        ours: &sides.ours,
        theirs: &sides.theirs,
    };
    let ranks = BothRanks::of(certificate, sides.sizes);
    // The C interface gives the side as a number, which may name none.
    if side == 0 {
        return follow_sides(view, ranks.of_left(), start, path, states, blocks);
    }
    if side == 1 {
        return follow_sides(view.turned(), ranks.of_right(), start, path, states, blocks);
    }
    refusal(25, 4)
}

// Follows a path of the side's table, 0 the left one and 1 the right one, on the other from the state `start` on: for any bytes and any numbers, the six
// numbers of the answer. The states that match it, three bytes each, go to the front of `states`, and the block numbers of the given states, two bytes
// each, to the front of `blocks`; on a refusal both stay as they were.
pub fn follow(
    left: &[u8],
    right: &[u8],
    certificate: &[u8],
    side: usize,
    start: usize,
    path: &[u8],
    states: &mut [u8],
    blocks: &mut [u8],
) -> Answer
    ensures value { result ≡ follow_answer left.now right.now certificate.now side start path.now
        states.old blocks.old }
    ensures states { states.new ≡ follow_states left.now right.now certificate.now side start
        path.now states.old blocks.old }
    ensures blocks { blocks.new ≡ follow_blocks left.now right.now certificate.now side start
        path.now states.old blocks.old }
{
    let answer = judge_known(left, right, certificate, Known::Plain);
    if answer.code != 0 {
        return answer;
    }
    follow_accepted(left, right, certificate, side, start, path, states, blocks)
}
