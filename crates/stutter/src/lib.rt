// The C interface, as include/stutter.h has it: a slice is a pointer and a length.
#![tactic(auto)]

ghost use Rattle.std.specs.Prelude.{◌≤◌, ◌≡◌, length};
ghost use Rattle.checker.specs.Judge.{judge_answer};
ghost use Rattle.ranking.specs.Make.{make_answer, make_output};
ghost use Rattle.ranking.specs.Enquire.{enquiry_for, commit_answer, commit_output};
ghost use Rattle.path_matcher.specs.Following.{follow_answer, follow_states, follow_blocks};
ghost use Rattle.table_writer.specs.Writing.{write_answer, write_output};
ghost use Rattle.stutter.specs.Interface.{has_room, answered, where_room, slip_in, have_room, where_both, slipped};

use answers::Answer;
use ranking::Slip;
use words::Row;

// The places that an answer takes, and those that a slip takes.
const PLACES: usize = 6;

const SLIP: usize = 4;

// Puts the six numbers into the first six places, and says whether there are six. Fewer places stay as they are.
fn put_numbers(numbers: Answer, places: &mut [u64]) -> bool
    ensures room { result ≡ has_room places.old }
    ensures put { places.new ≡ answered numbers places.old }
{
    if places.len() < PLACES {
        return false;
    }
    places[..PLACES].copy_from_slice(&[
        numbers.code as u64,
        numbers.file as u64,
        numbers.a as u64,
        numbers.b as u64,
        numbers.c as u64,
        numbers.d as u64,
    ]);
    true
}

// Puts the four numbers of a slip into the first four places. Fewer places stay as they are.
fn put_slip(slip: Slip, places: &mut [u64])
    ensures { places.new ≡ slipped slip places.old }
{
    if places.len() < SLIP {
        return;
    }
    places[..SLIP].copy_from_slice(&[
        slip.left as u64,
        slip.right as u64,
        slip.relation as u64,
        slip.certificate as u64,
    ]);
}

// The slip that the first four places hold.
fn slip_in(places: &[u64]) -> Slip
    requires { 4 ≤ length places.now }
    ensures { result ≡ slip_in places.now }
{
    Slip {
        left: places[0] as usize,
        right: places[1] as usize,
        relation: places[2] as usize,
        certificate: places[3] as usize,
    }
}

// Whether there are places for an answer.
fn has_room(answer: &[u64]) -> bool
    ensures { result ≡ has_room answer.now }
{
    answer.len() >= PLACES
}

// Whether there are places for an answer and for a slip.
#[tactic(auto, unfolding(crate::specs::Interface::have_room))]
fn have_room(slip: &[u64], answer: &[u64]) -> bool
    ensures { result ≡ have_room slip.now answer.now }
{
    slip.len() >= SLIP && has_room(answer)
}

// Judges the certificate. The six numbers go to the first six places of `answer`; where it has fewer, nothing is written and false is returned.
#[unsafe(no_mangle)]
pub extern "C" fn stutter_judge(
    left: &[u8],
    right: &[u8],
    certificate: &[u8],
    answer: &mut [u64],
) -> bool
    ensures room { result ≡ has_room answer.old }
    ensures put { answer.new
        ≡ answered (judge_answer left.now right.now certificate.now) answer.old }
{
    let numbers = checker::judge(left, right, certificate);
    put_numbers(numbers, answer)
}

// Makes a certificate at the front of `output`. The six numbers go to the first six places of `answer`; where it has fewer, nothing is written,
// neither to it nor to `output`, and false is returned.
#[unsafe(no_mangle)]
#[tactic(auto, using(crate::proofs::InterfaceLaws::too_few), unfolding(crate::specs::Interface::where_room))]
pub extern "C" fn stutter_make(
    left: &[u8],
    right: &[u8],
    relation: &[u8],
    output: &mut [u8],
    answer: &mut [u64],
) -> bool
    ensures room { result ≡ has_room answer.old }
    ensures put { answer.new
        ≡ answered (make_answer left.now right.now relation.now output.old) answer.old }
    ensures written { output.new
        ≡ where_room answer.old
        (make_output left.now right.now relation.now output.old) output.old }
{
    has_room(answer) && put_numbers(ranking::make(left, right, relation, output), answer)
}

// The same by the second maker, by sets: for every input the six numbers and the bytes of `stutter_make`.
#[unsafe(no_mangle)]
#[tactic(auto, using(crate::proofs::InterfaceLaws::too_few), unfolding(crate::specs::Interface::where_room))]
pub extern "C" fn stutter_make_by_sets(
    left: &[u8],
    right: &[u8],
    relation: &[u8],
    output: &mut [u8],
    answer: &mut [u64],
) -> bool
    ensures room { result ≡ has_room answer.old }
    ensures put { answer.new
        ≡ answered (make_answer left.now right.now relation.now output.old) answer.old }
    ensures written { output.new
        ≡ where_room answer.old
        (make_output left.now right.now relation.now output.old) output.old }
{
    has_room(answer) && put_numbers(ranking::make_by_sets(left, right, relation, output), answer)
}

// Follows a path of the table that `side` names, 0 left and 1 right, on the other one from its state `start` on. The states that match it go to the front of
// `states`, the block numbers of the given states to the front of `blocks`, and the six numbers to the first six places of `answer`; where it has fewer,
// nothing is written, neither to it nor to the outputs, and false is returned.
#[unsafe(no_mangle)]
#[tactic(auto, using(crate::proofs::InterfaceLaws::too_few), unfolding(crate::specs::Interface::where_room))]
pub extern "C" fn stutter_follow(
    left: &[u8],
    right: &[u8],
    certificate: &[u8],
    side: u64,
    start: u64,
    path: &[u8],
    states: &mut [u8],
    blocks: &mut [u8],
    answer: &mut [u64],
) -> bool
    ensures room { result ≡ has_room answer.old }
    ensures put { answer.new
        ≡ answered (follow_answer left.now right.now certificate.now side start path.now states.old
        blocks.old) answer.old }
    ensures states { states.new
        ≡ where_room answer.old
        (follow_states left.now right.now certificate.now side start path.now states.old
        blocks.old) states.old }
    ensures blocks { blocks.new
        ≡ where_room answer.old
        (follow_blocks left.now right.now certificate.now side start path.now states.old
        blocks.old) blocks.old }
{
    if !has_room(answer) {
        return false;
    }
    let numbers = path_matcher::follow(
        left,
        right,
        certificate,
        side as usize,
        start as usize,
        path,
        states,
        blocks,
    );
    put_numbers(numbers, answer)
}

// Writes a table of version 4 at the front of `output`: with these marks, one for each state, this start word, and these steps, from in the high byte and to in
// the low one, in rising order. The six numbers go to the first six places of `answer`; where it has fewer, nothing is written, neither to it nor to `output`,
// and false is returned.
#[unsafe(no_mangle)]
#[tactic(auto, using(crate::proofs::InterfaceLaws::too_few), unfolding(crate::specs::Interface::where_room))]
pub extern "C" fn stutter_write(
    marks: &[u32],
    starts: u64,
    steps: &[u16],
    output: &mut [u8],
    answer: &mut [u64],
) -> bool
    ensures room { result ≡ has_room answer.old }
    ensures put { answer.new
        ≡ answered (write_answer marks.now starts steps.now output.old) answer.old }
    ensures written { output.new
        ≡ where_room answer.old (write_output marks.now starts steps.now output.old) output.old }
{
    let starts = Row(starts);
    has_room(answer) && put_numbers(table_writer::write(marks, starts, steps, output), answer)
}

// Enquires whether a certificate can be made. The four numbers of the slip go to the first four places of `slip`, and the six numbers to the first six places
// of `answer`; where either has fewer, nothing is written, neither to the one nor to the other, and false is returned.
#[unsafe(no_mangle)]
pub extern "C" fn stutter_enquire(
    left: &[u8],
    right: &[u8],
    relation: &[u8],
    slip: &mut [u64],
    answer: &mut [u64],
) -> bool
    ensures room { result ≡ have_room slip.old answer.old }
    ensures put { answer.new
        ≡ where_both slip.old answer.old
        (answered (enquiry_for left.now right.now relation.now).answer answer.old) answer.old }
    ensures slip { slip.new
        ≡ where_both slip.old answer.old
        (slipped (enquiry_for left.now right.now relation.now).slip slip.old) slip.old }
{
    if !have_room(slip, answer) {
        return false;
    }
    let enquiry = ranking::enquire(left, right, relation);
    put_slip(enquiry.slip, slip);
    put_numbers(enquiry.answer, answer)
}

// Makes a certificate at the front of `output`, where the first four places of `slip` have the true numbers. The six numbers go to the first six places of
// `answer`; where it has fewer, or `slip` fewer than four, nothing is written, neither to `answer` nor to `output`, and false is returned.
#[unsafe(no_mangle)]
pub extern "C" fn stutter_commit(
    left: &[u8],
    right: &[u8],
    relation: &[u8],
    slip: &[u64],
    output: &mut [u8],
    answer: &mut [u64],
) -> bool
    ensures room { result ≡ have_room slip.now answer.old }
    ensures put { answer.new
        ≡ where_both slip.now answer.old
        (answered (commit_answer left.now right.now relation.now (slip_in slip.now) output.old)
        answer.old) answer.old }
    ensures written { output.new
        ≡ where_both slip.now answer.old
        (commit_output left.now right.now relation.now (slip_in slip.now) output.old)
        output.old }
{
    if !have_room(slip, answer) {
        return false;
    }
    let numbers = ranking::commit(left, right, relation, slip_in(slip), output);
    put_numbers(numbers, answer)
}
