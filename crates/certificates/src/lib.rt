// Certificates: the sizes of two tables, where the rows and the runs of ranks lie, and reading a row.
#![tactic(auto)]

ghost use Rattle.std.specs.Prelude.{◌≡◌};
ghost use Rattle.certificates.specs.Layout.{sizes_for, certificate_length, runs_of, rows_part, row_of};

use lists::part_of;
use tables::Head;
use words::Row;

// The sizes of two tables, as a certificate's header has them: states left and right, steps left and right.
#[derive(Clone, Copy)]
pub struct Sizes {
    pub n1: u8,
    pub n2: u8,
    pub m1: u16,
    pub m2: u16,
}

// Where the four runs of ranks begin in a certificate.
#[derive(Clone, Copy)]
pub struct Runs {
    pub al: usize,
    pub ar: usize,
    pub cl: usize,
    pub cr: usize,
}

impl Sizes {
    // The bytes of a certificate's header.
    pub const HEADER: usize = 11;

    // The bytes of a row.
    pub const ROW: usize = 8;

    // The version that is read and written.
    pub const VERSION: u64 = 1;

    // The third byte of a certificate, "C".
    pub const CERTIFICATE: usize = 0x43;

    // The sizes that the headers of two tables give, in the widths of a certificate's header.
    pub fn of(left: Head, right: Head) -> Self
        ensures { result ≡ sizes_for left right }
    {
        Sizes {
            n1: (left.states % 256) as u8,
            n2: (right.states % 256) as u8,
            m1: (left.steps % 65536) as u16,
            m2: (right.steps % 65536) as u16,
        }
    }

    // Where the four runs of ranks begin: AL after the rows, and each of AR, CL and CR after the run before it.
    pub fn runs(self) -> Runs
        ensures { result ≡ runs_of self }
    {
        let n1 = self.n1 as usize;
        let n2 = self.n2 as usize;
        let al = Sizes::HEADER + Sizes::ROW * n1;
        let ar = al + n1 * n2;
        let cl = ar + n1 * n2;
        let cr = cl + self.m1 as usize * n2;
        Runs { al, ar, cl, cr }
    }

    // The length L of a certificate: where CR ends.
    pub fn length(self) -> usize
        ensures { result ≡ certificate_length self }
    {
        let runs = self.runs();
        runs.cr + self.m2 as usize * self.n1 as usize
    }
}

// The rows of a certificate, as the part of the file that holds them.
pub fn rows(certificate: &[u8], sizes: Sizes) -> &[u8]
    ensures { result.now ≡ rows_part certificate.now sizes }
{
    let runs = sizes.runs();
    part_of(certificate, Sizes::HEADER, runs.al)
}

// The row of left state s, from the part that holds the rows; empty past the end.
pub fn row(rows: &[u8], s: usize) -> Row
    ensures { result.0 ≡ row_of rows.now s }
{
    if rows.len() / Sizes::ROW < s {
        return Row::empty();
    }
    Row::read(rows, s * Sizes::ROW)
}
