// Reads the three pieces of a program's standard input.
#![tactic(auto)]

ghost use Rattle.std.specs.Prelude.{◌≤◌, length, take};
ghost use Rattle.pieces.specs.Pieces.{ReadCall, ReadOut};
ghost use Rattle.standard_input.specs.Answered.{answered};

use std::io::{Read, Stdin};

// The most bytes that three pieces and their lengths have: 3 times 2 + 65,535.
pub const MOST: usize = 196611;

// The one call of `read`, on standard input; answers how many bytes it put, if it did not fail.
fn read_once(mut stdin: Stdin, places: &mut [u8]) -> Option<usize>
    ensures { ReadCall (length places.old) (answered result) places.new }
{
    stdin.read(places).ok()
}

// Reads until the three pieces are there or the input ends, never past the third piece, and answers how many bytes came. A read that fails is taken for the end.
pub fn read_pieces(stdin: Stdin, input: &mut [u8; MOST]) -> usize
    ensures fits { result ≤ length input.new }
    ensures read { ReadOut (take result input.new) }
{
    let places: &mut [u8] = input;
    let mut n: usize = 0;
    loop {
        let missing = pieces::missing(&places[..n]);
        if missing == 0 {
            return n;
        }
        let end = n + missing;
        let part = &mut places[n..end];
        let Some(got) = read_once(stdin, part) else {
            return n;
        };
        if got == 0 {
            return n;
        }
        n += got;
    }
}
