// The maker, once by each finder of match distances, and the enquiry and the commit that part it in two: for any byte strings and any output their six
// numbers, the slip and every byte of the output. Each reads the files and examines what was read; the makers and the commit only then fill the output.
#![tactic(auto)]

ghost use Rattle.std.specs.Prelude.{◌≡◌, length, Ok};
ghost use Rattle.answers.specs.Numbers.{six_numbers};
ghost use Rattle.certificates.specs.Layout.{sizes_for, sizes_of, certificate_length};
ghost use Rattle.sides.specs.Views.{view_in};
ghost use Rattle.lengths.specs.Cells.{distance_table, chain_table};
ghost use Rattle.inputs.specs.Inputs.{read_verdict};
ghost use Rattle.files.specs.File.{certificate_file};
ghost use Rattle.files.specs.Writer.{file_written};
ghost use Rattle.ranking.specs.Make.{examined_verdict, file_for, make_answer, make_output};
ghost use Rattle.ranking.specs.OnSides.{ranks_from};
ghost use Rattle.ranking.specs.Enquire.{blank_slip, enquiry_for, commit_answer, commit_output};

use answers::Answer;
use certificates::Sizes;
use examination::{Lengths, examine};
use files::{Grids, fill};
use inputs::read;
use lengths::{Measured, all_chains, measure};
use rank_grids::{match_ranks, stutter_ranks};
use relation_words::{column_words, row_words};
use sides::{Side, View};
use table_pairs::Heads;
use tables::{Head, labels, steps};

// The slip of an enquiry: the lengths in bytes of the three inputs and of their certificate.
#[derive(Clone, Copy, PartialEq, Eq)]
pub struct Slip {
    pub left: usize,
    pub right: usize,
    pub relation: usize,
    pub certificate: usize,
}

// What an enquiry gives: the six numbers, and the slip.
#[derive(Clone, Copy)]
pub struct Enquiry {
    pub answer: Answer,
    pub slip: Slip,
}

// How the lengths of one side are found. A maker is one for each way.
trait Finder {
    // The match distances of our steps and the lengths of our chains.
    fn measure(view: View) -> Measured
        ensures distances { result.distances ≡ distance_table (view_in view.entry.ours.now view.entry.theirs.now) }
        ensures chains { result.chains ≡ chain_table (view_in view.entry.ours.now view.entry.theirs.now) };
}

// By relaxing rows of lengths, the reference.
struct Relaxing;

// By growing sets of states (document 02, Ask 10).
struct Sets;

impl Finder for Relaxing {
    fn measure(view: View) -> Measured {
        measure(view)
    }
}

impl Finder for Sets {
    fn measure(view: View) -> Measured {
        let distances = match_sets::distances(view);
        let chains = all_chains(view, &distances);
        Measured { distances, chains }
    }
}

// Two sides that are examined: the lengths of our side and of theirs, and what the examination says.
#[derive(Drop)]
struct Examined {
    ours: Side,
    theirs: Side,
    lengths: Measured,
    lengths2: Measured,
    checked: Result<(), Answer>,
}

// ---- the parts

// Measures and examines what was read.
fn examine_read<F: Finder>(left: &[u8], right: &[u8], relation: &[u8], heads: Heads) -> Examined
    requires { read_verdict left.now right.now relation.now ≡ Ok heads }
    ensures checked { result.checked ≡ examined_verdict left.now right.now relation.now }
    ensures ranks { certificate_file (sizes_of left.now right.now) relation.now (ranks_from result)
        ≡ file_for left.now right.now relation.now }
{
    let words = row_words(relation, heads.left.states);
    let columns = column_words(&words);
    let ours = Side::of(heads.left, labels(left), steps(left), &words);
    let theirs = Side::of(heads.right, labels(right), steps(right), &columns);
    let view = View {
        ours: &ours,
        theirs: &theirs,
    };
    let lengths = F::measure(view);
    let lengths2 = F::measure(view.turned());
    let own = Lengths {
        distances: &lengths.distances,
        chains: &lengths.chains,
    };
    let other = Lengths {
        distances: &lengths2.distances,
        chains: &lengths2.chains,
    };
    let checked = examine(view, own, other);
    Examined {
        ours,
        theirs,
        lengths,
        lengths2,
        checked,
    }
}

// Fills the front of the output with the file of what was examined.
fn fill_examined(examined: Examined, relation: &[u8], sizes: Sizes, output: &mut [u8])
    ensures { output.new ≡ file_written sizes relation.now (ranks_from examined) output.old }
{
    let al = stutter_ranks(&examined.ours, &examined.lengths.chains);
    let ar = stutter_ranks(&examined.theirs, &examined.lengths2.chains);
    let cl = match_ranks(&examined.theirs, &examined.lengths.distances);
    let cr = match_ranks(&examined.ours, &examined.lengths2.distances);
    let grids = Grids {
        al: &al,
        ar: &ar,
        cl: &cl,
        cr: &cr,
    };
    fill(relation, sizes, grids, output);
}

// The answer where a certificate of this length is or can be made.
fn success(length: usize) -> Answer
    ensures { result ≡ six_numbers 0 0 length }
{
    Answer::of(0, 0, length)
}

// The true slip of two tables with these headers and a relation.
fn slip_for(left: &[u8], right: &[u8], relation: &[u8], heads: Heads) -> Slip
    ensures { result ≡ record {
      left = length left.now;
      right = length right.now;
      relation = length relation.now;
      certificate = certificate_length (sizes_for heads.left heads.right);
    } }
{
    Slip {
        left: left.len(),
        right: right.len(),
        relation: relation.len(),
        certificate: Sizes::of(heads.left, heads.right).length(),
    }
}

// Four zeros, the slip of a refused enquiry.
fn blank_slip() -> Slip
    ensures { result ≡ blank_slip }
{
    Slip {
        left: 0,
        right: 0,
        relation: 0,
        certificate: 0,
    }
}

// ---- the maker

// The answer where both tables and the relation are read: 21 where the output has no room, what the examination refuses, or the length of the file. A call
// of its own, so that what is refused before takes none of its stack.
#[inline(never)]
fn make_read<F: Finder>(
    left: &[u8],
    right: &[u8],
    relation: &[u8],
    heads: Heads,
    output: &mut [u8],
) -> Answer
    requires { read_verdict left.now right.now relation.now ≡ Ok heads }
    ensures value { result ≡ make_answer left.now right.now relation.now output.old }
    ensures written { output.new ≡ make_output left.now right.now relation.now output.old }
{
    let sizes = Sizes::of(heads.left, heads.right);
    let length = sizes.length();
    if output.len() < length {
        return Answer::of(21, 3, length);
    }
    let examined = examine_read::<F>(left, right, relation, heads);
    match examined.checked {
        Err(answer) => answer,
        Ok(()) => {
            fill_examined(examined, relation, sizes, output);
            success(length)
        }
    }
}

// The maker by a finder: for any byte strings and any output, the six numbers of its answer; the output gets the certificate, or stays as it was.
fn make_with<F: Finder>(left: &[u8], right: &[u8], relation: &[u8], output: &mut [u8]) -> Answer
    ensures value { result ≡ make_answer left.now right.now relation.now output.old }
    ensures written { output.new ≡ make_output left.now right.now relation.now output.old }
{
    match read(left, right, relation) {
        Ok(heads) => make_read::<F>(left, right, relation, heads, output),
        Err(refusal) => refusal,
    }
}

// The maker, the reference.
pub fn make(left: &[u8], right: &[u8], relation: &[u8], output: &mut [u8]) -> Answer
    ensures value { result ≡ make_answer left.now right.now relation.now output.old }
    ensures written { output.new ≡ make_output left.now right.now relation.now output.old }
{
    make_with::<Relaxing>(left, right, relation, output)
}

// The second maker, by sets: it finds match distances in another way, and gives the same six numbers and bytes.
pub fn make_by_sets(left: &[u8], right: &[u8], relation: &[u8], output: &mut [u8]) -> Answer
    ensures value { result ≡ make_answer left.now right.now relation.now output.old }
    ensures written { output.new ≡ make_output left.now right.now relation.now output.old }
{
    make_with::<Sets>(left, right, relation, output)
}

// ---- the enquiry

// What the enquiry gives where both tables and the relation are read: what the examination refuses and zeros, or the length of the file and the true slip.
fn enquire_read(left: &[u8], right: &[u8], relation: &[u8], heads: Heads) -> Enquiry
    requires { read_verdict left.now right.now relation.now ≡ Ok heads }
    ensures { result ≡ enquiry_for left.now right.now relation.now }
{
    let examined = examine_read::<Relaxing>(left, right, relation, heads);
    let slip = slip_for(left, right, relation, heads);
    let blank = blank_slip();
    match examined.checked {
        Err(answer) => Enquiry {
            answer,
            slip: blank,
        },
        Ok(()) => Enquiry {
            answer: success(slip.certificate),
            slip,
        },
    }
}

// The enquiry: for any byte strings, the maker's answer without 21, and the slip for the commit.
pub fn enquire(left: &[u8], right: &[u8], relation: &[u8]) -> Enquiry
    ensures { result ≡ enquiry_for left.now right.now relation.now }
{
    match read(left, right, relation) {
        Ok(heads) => enquire_read(left, right, relation, heads),
        Err(answer) => Enquiry {
            answer,
            slip: blank_slip(),
        },
    }
}

// ---- the commit

// The commit: for any byte strings, any slip and any output, the six numbers of its answer; the output gets the certificate, or stays as it was.
pub fn commit(left: &[u8], right: &[u8], relation: &[u8], slip: Slip, output: &mut [u8]) -> Answer
    ensures value { result ≡ commit_answer left.now right.now relation.now slip output.old }
    ensures written { output.new ≡ commit_output left.now right.now relation.now slip output.old }
{
    match read(left, right, relation) {
        Ok(heads) => {
            let due = slip_for(left, right, relation, heads);
            if slip == due {
                make_read::<Relaxing>(left, right, relation, heads, output)
            } else {
                Answer::of(29, 2, 0)
            }
        }
        Err(refusal) => refusal,
    }
}
