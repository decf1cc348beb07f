// Runs the readers, the judge and the maker on the cases of standard input, edges and examples of documents 01 and 02, and prints what they say, a line
// each: the case in words, then six numbers. A refusal prints its six numbers, as do the judge and the maker. A table that is read prints 0 0, its
// states, its steps, its version and its smallest initial state; a certificate or a relation that is read prints 0 0 and its four sizes.
//
// A case is a line: what it is in words and a colon, a letter that says what is shown, and up to three files as hexadecimal digits. The first two are
// the tables, of which a certificate, a relation and the offsets need the headers alone; the third is a certificate or a relation. The letters:
// T a table, P a pair of tables, C a certificate, R a relation, O the offsets of a certificate, L the labels of a table, S its first two steps,
// E two steps past its end;
// J the judge's answer to a certificate;
// M the maker's answer, where the output is as long as the certificate; N the same, where it is a byte shorter;
// B what the judge says of the certificate that the maker writes, or the maker's refusal;
// W not six numbers, but an output of one byte more than the certificate, as the maker leaves it, in hexadecimal digits.
// Before the maker runs, each byte of the output is a5.
#![tactic(auto)]

ghost use Rattle.std.specs.Prelude.{◌≡◌, true, ◌<◌, ◌≤◌, length, IfSome};

use answers::Answer;
use certificates::Sizes;
use std::io::{Read, Stdin};
use table_reader::Known;

// ---- printing

// A write that fails is not told, and what comes after it is printed all the same: so each of the results is let go.

// The six numbers, on a line.
fn print_answer(rt: &impl Print, answer: Answer) {
    let Answer {
        code,
        file,
        a,
        b,
        c,
        d,
    } = answer;
    for number in [code, file, a, b, c] {
        let _ = print!(rt; "{number}");
        let _ = print!(rt; " ");
    }
    let _ = print!(rt; "{d}");
    let _ = println!(rt);
}

// The bytes as hexadecimal digits, on a line.
fn print_bytes(rt: &impl Print, bytes: &[u8]) {
    for value in bytes {
        let _ = print!(rt; "{:x}", *value / 16);
        let _ = print!(rt; "{:x}", *value % 16);
    }
    let _ = println!(rt);
}

// ---- what the readers say

// What is printed of a file that is read: 0 0 and four numbers.
fn good(a: usize, b: usize, c: usize, d: usize) -> Answer {
    Answer {
        code: 0,
        file: 0,
        a,
        b,
        c,
        d,
    }
}

fn good_sizes(sizes: Sizes) -> Answer {
    good(
        usize::from(sizes.n1),
        usize::from(sizes.n2),
        usize::from(sizes.m1),
        usize::from(sizes.m2),
    )
}

fn table_numbers(s: &[u8], file: usize) -> Answer {
    match table_reader::read_table(s, Known::Both) {
        Ok(head) => good(
            head.states,
            head.steps,
            tables::version(s),
            head.initial.first(),
        ),
        Err(refusal) => refusal.answer(file),
    }
}

// Reads the left table, then the right, and tells of the first that is refused, or of the right one.
fn pair_numbers(left: &[u8], right: &[u8]) -> Answer {
    if table_reader::read_table(left, Known::Both).is_err() {
        table_numbers(left, 0)
    } else {
        table_numbers(right, 1)
    }
}

fn certificate_numbers(certificate: &[u8], sizes: Sizes) -> Answer {
    match certificate_reader::read_certificate(certificate, sizes) {
        Ok(found) => good_sizes(found),
        Err(refusal) => refusal.answer(2),
    }
}

fn relation_numbers(relation: &[u8], sizes: Sizes) -> Answer {
    match certificate_reader::read_relation(relation, sizes) {
        Ok(found) => good_sizes(found),
        Err(refusal) => refusal.answer(2),
    }
}

// The offsets of the rows and of the four runs, and the length.
fn layout_numbers(sizes: Sizes) -> Answer {
    let runs = sizes.runs();
    Answer {
        code: Sizes::HEADER,
        file: runs.al,
        a: runs.ar,
        b: runs.cl,
        c: runs.cr,
        d: sizes.length(),
    }
}

// The labels of three states and of one past the end.
fn label_numbers(table: &[u8]) -> Answer {
    let format = tables::format_of(table);
    let labels = tables::labels(table);
    let first = tables::label(labels, format, 0);
    let second = tables::label(labels, format, 1);
    let third = tables::label(labels, format, 2);
    let last = tables::label(labels, format, usize::MAX);
    good(
        first as usize,
        second as usize,
        third as usize,
        last as usize,
    )
}

// The ends of two steps.
fn step_numbers(table: &[u8], j: usize, k: usize) -> Answer {
    let format = tables::format_of(table);
    let steps = tables::steps(table);
    let from = tables::from(steps, format, j);
    let to = tables::to(steps, format, j);
    let next_from = tables::from(steps, format, k);
    let next_to = tables::to(steps, format, k);
    good(from, to, next_from, next_to)
}

// ---- what is said of the files of a case

// The files of a case: two tables, and a certificate or a relation.
#[derive(Clone, Copy)]
struct Files<'a> {
    left: &'a [u8],
    right: &'a [u8],
    file: &'a [u8],
}

impl Files<'_> {
    // The sizes that the headers of the tables give, whether or not they are good tables.
    fn sizes(self) -> Sizes {
        Sizes {
            n1: tables::states(self.left) as u8,
            n2: tables::states(self.right) as u8,
            m1: tables::step_count(self.left) as u16,
            m2: tables::step_count(self.right) as u16,
        }
    }

    // The length of a certificate, and 1023 for a longer one: an output has 1024 bytes.
    #[tactic(auto, unfolding(certificates::specs::Layout::certificate_length))]
    fn room(self) -> usize
        ensures { (0 < result) × (result < 1024) }
    {
        let sizes = self.sizes();
        sizes.length().min(1023)
    }

    // Makes in the first n bytes of the output.
    fn make_in(self, output: &mut [u8], n: usize) -> Answer
        requires { n ≤ length output.old }
    {
        let part = &mut output[..n];
        ranking::make(self.left, self.right, self.file, part)
    }

    // Whether the maker and the maker by sets, each with an output of its own that holds the same, give the same six numbers and leave the same bytes: they
    // do, for every input and output.
    fn makers_agree(self, output: &mut [u8], output2: &mut [u8]) -> bool
        requires { output.old ≡ output2.old }
        ensures { result ≡ true }
    {
        let made = ranking::make(self.left, self.right, self.file, output);
        let made2 = ranking::make_by_sets(self.left, self.right, self.file, output2);
        made == made2 && check::same(output, output2)
    }

    // Both makers on outputs of 1024 bytes.
    fn expect_agreement(self) {
        let mut output = [0xa5u8; 1024];
        let mut output2 = [0xa5u8; 1024];
        check::expect(self.makers_agree(&mut output, &mut output2));
    }

    // The answer, where the output is as long as the certificate.
    fn made(self) -> Answer {
        let n = self.room();
        let mut output = [0xa5u8; 1024];
        self.expect_agreement();
        self.make_in(&mut output, n)
    }

    // The answer, where the output is one byte shorter.
    fn made_short(self) -> Answer {
        let n = self.room() - 1;
        let mut output = [0xa5u8; 1024];
        self.make_in(&mut output, n)
    }

    // What the judge says of the certificate written, or the maker's refusal.
    fn made_judged(self) -> Answer {
        let n = self.room();
        let mut output = [0xa5u8; 1024];
        let made = self.make_in(&mut output, n);
        if made.code != 0 {
            return made;
        }
        checker::judge(self.left, self.right, &output[..n])
    }

    // The output of one byte more than the certificate, as the maker leaves it.
    fn print_written(self, rt: &impl Print) {
        let n = self.room() + 1;
        let mut output = [0xa5u8; 1024];
        self.make_in(&mut output, n);
        print_bytes(rt, &output[..n]);
    }

    // The six numbers that the letter asks for.
    fn numbers(self, letter: u8) -> Answer {
        match letter {
            b'T' => table_numbers(self.left, 0),
            b'P' => pair_numbers(self.left, self.right),
            b'C' => certificate_numbers(self.file, self.sizes()),
            b'R' => relation_numbers(self.file, self.sizes()),
            b'O' => layout_numbers(self.sizes()),
            b'L' => label_numbers(self.left),
            b'S' => step_numbers(self.left, 0, 1),
            b'J' => checker::judge(self.left, self.right, self.file),
            b'M' => self.made(),
            b'N' => self.made_short(),
            b'B' => self.made_judged(),
            _ => step_numbers(self.left, 2, usize::MAX),
        }
    }

    // Prints what the letter asks for.
    fn show(self, rt: &impl Print, letter: u8) {
        if letter == b'W' {
            self.print_written(rt);
        } else {
            print_answer(rt, self.numbers(letter));
        }
    }
}

// ---- cases

// Where the byte first stands.
fn find(s: &[u8], wanted: u8) -> Option<usize>
    ensures { IfSome result (λ i. i < length s.now) }
{
    s.iter().position(|byte| *byte == wanted)
}

// What stands before the first such byte and what after it; all and nothing where there is none.
fn cut(s: &[u8], wanted: u8) -> (&[u8], &[u8]) {
    match find(s, wanted) {
        Some(i) => (&s[..i], &s[i + 1..]),
        None => (s, &[]),
    }
}

// The value of a hexadecimal digit.
fn digit(letter: u8) -> u8
    ensures { result < 16 }
{
    if letter <= b'9' {
        return letter % 16;
    }
    (letter % 16 + 9) % 16
}

// Puts the bytes that the digits give, as far as there is room, and answers these.
fn decode<'a>(digits: &[u8], buffer: &'a mut [u8; 1024]) -> &'a [u8] {
    let n = (digits.len() / 2).min(buffer.len());
    for i in 0..n {
        buffer[i] = digit(digits[i * 2]) * 16 + digit(digits[i * 2 + 1]);
    }
    &buffer[..n]
}

// Prints what the letter asks for of the files of a case.
fn show_files(rt: &impl Print, letter: u8, files: &[u8]) {
    let (left, others) = cut(files, b' ');
    let (right, file) = cut(others, b' ');
    let (mut l, mut r, mut f) = ([0u8; 1024], [0u8; 1024], [0u8; 1024]);
    let files = Files {
        left: decode(left, &mut l),
        right: decode(right, &mut r),
        file: decode(file, &mut f),
    };
    files.show(rt, letter);
}

// Prints the words of a case and what it shows.
fn show_case(rt: &impl Print, line: &[u8]) {
    let (words, rest) = cut(line, b':');
    let (_, rest) = cut(rest, b' ');
    let (letter, files) = cut(rest, b' ');
    let _ = rt.write_all(words);
    let _ = print!(rt; ": ");
    show_files(rt, letter.first().copied().unwrap_or(0), files);
}

// Shows the cases, of which each ends in a line feed.
fn show_cases(rt: &impl Print, text: &[u8]) {
    for line in text.split_inclusive(|byte| *byte == b'\n') {
        let (case, _) = cut(line, b'\n');
        show_case(rt, case);
    }
}

// Reads until the text is full or the input ends, and answers what came. A read that fails is taken for the end.
fn read_text(mut stdin: Stdin, text: &mut [u8]) -> &[u8] {
    let mut n: usize = 0;
    while n < text.len() {
        let got = stdin.read(&mut text[n..]).unwrap_or(0);
        if got == 0 {
            break;
        }
        n += got;
    }
    &text[..n]
}

fn main(rt: HostRuntime) {
    let mut text = [0u8; 65536];
    show_cases(&rt, read_text(rt.stdin(), &mut text));
}
