// Six numbers as the programs print them: in decimal, one space between, and a newline.
#![tactic(auto)]

ghost use Rattle.std.specs.Prelude.{◌≡◌, ◌+◌, ◌≤◌, length};
ghost use Rattle.texts.specs.Texts.{decimal, number_text, six_text, answer_text, fitting};
ghost use Rattle.texts.specs.Wrote.{most_number, Wrote};

use answers::Answer;

// The most bytes that six numbers take, each with the byte after it.
pub const MOST: usize = 126;

const ZERO: u8 = b'0';

const SPACE: u8 = b' ';

const NEWLINE: u8 = b'\n';

// Puts a number in decimal over the output from `at` on, and answers where it ends.
fn put_digits(n: usize, output: &mut [u8], at: usize) -> usize
    requires { at + length (decimal n) ≤ length output.old }
    ensures { Wrote (decimal n) at result output.old output.new }
{
    if n < 10 {
        output[at] = ZERO + n as u8;
        return at + 1;
    }
    let end = put_digits(n / 10, output, at);
    output[end] = ZERO + (n % 10) as u8;
    end + 1
}

// Puts a number in decimal and the byte after it, and answers where they end.
fn put_number(n: usize, after: u8, output: &mut [u8], at: usize) -> usize
    requires { at + most_number ≤ length output.old }
    ensures text { Wrote (number_text n after) at result output.old output.new }
    ensures small { result ≤ at + most_number }
{
    let end = put_digits(n, output, at);
    output[end] = after;
    end + 1
}

// Puts six numbers in decimal over the output from `at` on, one space between and a newline after the last, and answers where they end. Where fewer than
// 126 places stand from `at` on, nothing is put.
pub fn put_six(
    a: usize,
    b: usize,
    c: usize,
    d: usize,
    e: usize,
    f: usize,
    output: &mut [u8],
    at: usize,
) -> usize
    ensures { Wrote (fitting (six_text a b c d e f) at output.old) at result output.old output.new }
{
    if output.len() < MOST || output.len() - MOST < at {
        return at;
    }
    // Written out: a loop over five of the six would leave the last one, with its newline, to a call of its own.
    let to_b = put_number(a, SPACE, output, at);
    let to_c = put_number(b, SPACE, output, to_b);
    let to_d = put_number(c, SPACE, output, to_c);
    let to_e = put_number(d, SPACE, output, to_d);
    let to_f = put_number(e, SPACE, output, to_e);
    put_number(f, NEWLINE, output, to_f)
}

// Puts the six numbers of an answer, as put_six puts them.
pub fn put_answer(answer: Answer, output: &mut [u8], at: usize) -> usize
    ensures { Wrote (fitting (answer_text answer) at output.old) at result output.old output.new }
{
    let Answer {
        code,
        file,
        a,
        b,
        c,
        d,
    } = answer;
    put_six(code, file, a, b, c, d, output, at)
}
