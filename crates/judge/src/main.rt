// The program: reads the two tables and the certificate from standard input, judges, and prints the six numbers.
#![tactic(auto)]

ghost use Rattle.std.specs.Prelude.{◌≡◌, List, ℕ};
ghost use Rattle.pieces.specs.Pieces.{piece_of, ReadOut};
ghost use Rattle.checker.specs.Judge.{judge_answer};

use answers::Answer;
use std::io::{Stdin, Stdout, Write};

// The judge's answer to an input.
fn answer_of(input: &[u8]) -> Answer
    ensures { result ≡ judge_answer (piece_of input.now 0) (piece_of input.now 1) (piece_of input.now 2) }
{
    let left = pieces::piece(input, 0);
    let right = pieces::piece(input, 1);
    let certificate = pieces::piece(input, 2);
    checker::judge(left, right, certificate)
}

// Reads the input until it is whole or ends, and judges its three pieces.
fn judge_input(stdin: Stdin) -> Answer
    ensures { (s : List ℕ) × ReadOut s × (result ≡ judge_answer (piece_of s 0) (piece_of s 1) (piece_of s 2)) }
{
    let mut input = [0u8; standard_input::MOST];
    let n = standard_input::read_pieces(stdin, &mut input);
    answer_of(&input[..n])
}

// Prints the six numbers: in decimal, one space between, and a newline. A write that fails is not told.
fn print_answer(mut stdout: Stdout, answer: Answer) {
    let mut line = [0u8; texts::MOST];
    let end = texts::put_answer(answer, &mut line, 0);
    // Not by `println!`: what `put_answer` puts is proved, and a write that fails leaves the exit status as it is.
    let _ = stdout.write_all(&line[..end]);
}

fn main(rt: HostRuntime) {
    print_answer(rt.stdout(), judge_input(rt.stdin()));
}
