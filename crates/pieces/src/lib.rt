// How the program's standard input is cut: three pieces, left, right and certificate, each after a two-byte length.
#![tactic(auto)]

ghost use Rattle.std.specs.Prelude.{◌≡◌, ◌*◌, ◌-◌, ◌≤◌, length};
ghost use Rattle.pieces.specs.Pieces.{length_at, piece_start, piece_end, piece_of, missing_of};

use lists::{part_of, read_be16};

// Where the length of piece i begins.
fn length_at(input: &[u8], i: usize) -> usize
    requires { i ≤ 1000 }
    ensures value { result ≡ length_at input.now i }
    ensures small { result ≤ i * 65537 }
{
    let mut at: usize = 0;
    for _ in 0..i {
        at += 2 + read_be16(input, at) as usize;
    }
    at
}

// Where piece i begins, after its length. It may lie past the end of an input that is cut short.
fn piece_start(input: &[u8], i: u8) -> usize
    ensures { result ≡ piece_start input.now i }
{
    length_at(input, usize::from(i)) + 2
}

// Where piece i ends. It may lie past the end of an input that is cut short.
fn piece_end(input: &[u8], i: u8) -> usize
    ensures { result ≡ piece_end input.now i }
{
    length_at(input, usize::from(i) + 1)
}

// Piece i, as far as it is there: 0 left, 1 right, 2 certificate.
pub fn piece(input: &[u8], i: u8) -> &[u8]
    ensures { result.now ≡ piece_of input.now i }
{
    let start = piece_start(input, i);
    let end = piece_end(input, i);
    part_of(input, start, end)
}

// How many bytes are to be read next, after those of `input`: never more than the three pieces still ask for, and 0 where they are there.
pub fn missing(input: &[u8]) -> usize
    ensures value { result ≡ missing_of input.now }
    ensures small { result ≤ 196611 - length input.now }
{
    let wanted = length_at(input, 3);
    wanted.saturating_sub(input.len())
}
