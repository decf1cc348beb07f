// The listing program: reads the two tables and the certificate from standard input, judges, and prints how each obligation is met; on a refusal it prints
// the six numbers.
#![tactic(auto)]

ghost use Rattle.std.specs.Prelude.{◌≡◌, List, ℕ, ◌≤◌, length, take};
ghost use Rattle.pieces.specs.Pieces.{piece_of, ReadOut};
ghost use Rattle.lister.specs.Listing.{printed};

use std::io::{Stdin, Write};

// Puts what is printed for an input, and answers how many bytes that are.
fn list_of(input: &[u8], output: &mut [u8; lister::MOST]) -> usize
    ensures fits { result ≤ length output.new }
    ensures text { take result output.new ≡ printed (piece_of input.now 0) (piece_of input.now 1)
        (piece_of input.now 2) }
{
    let left = pieces::piece(input, 0);
    let right = pieces::piece(input, 1);
    let certificate = pieces::piece(input, 2);
    lister::list(left, right, certificate, output)
}

// Reads the input until it is whole or ends, and puts what is printed for its three pieces.
fn list_input(stdin: Stdin, output: &mut [u8; lister::MOST]) -> usize
    ensures fits { result ≤ length output.new }
    ensures text { (s : List ℕ) × ReadOut s × (take result output.new ≡ printed (piece_of s 0) (piece_of s 1) (piece_of s 2)) }
{
    let mut input = [0u8; standard_input::MOST];
    let n = standard_input::read_pieces(stdin, &mut input);
    list_of(&input[..n], output)
}

// A write that fails is not told.
fn main(rt: HostRuntime) {
    let mut output = [0u8; lister::MOST];
    let n = list_input(rt.stdin(), &mut output);
    let _ = rt.stdout().write_all(&output[..n]);
}
