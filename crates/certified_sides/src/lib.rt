// The two sides of two tables and a certificate, for what comes after the judge: it makes them again from the same bytes.
#![tactic(auto)]

ghost use Rattle.certified_sides.specs.Made.{CertifiedSides};

use certificates::{Sizes, rows};
use relation_words::{column_words, row_words};
use sides::Side;
use table_reader::head_of;
use tables::{labels, steps};

// The left side, the right side, and the sizes of both tables.
#[derive(Drop)]
pub struct Sides {
    pub ours: Side,
    pub theirs: Side,
    pub sizes: Sizes,
}

// The sides that the headers, labels and steps of two byte strings and the rows of a third give, whatever they hold.
pub fn sides_of(left: &[u8], right: &[u8], certificate: &[u8]) -> Sides
    ensures { CertifiedSides left.now right.now certificate.now result }
{
    let head = head_of(left);
    let head2 = head_of(right);
    let sizes = Sizes::of(head, head2);
    let words = row_words(rows(certificate, sizes), sizes.n1 as usize);
    let columns = column_words(&words);
    let ours = Side::of(head, labels(left), steps(left), &words);
    let theirs = Side::of(head2, labels(right), steps(right), &columns);
    Sides {
        ours,
        theirs,
        sizes,
    }
}
