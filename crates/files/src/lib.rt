// The file of a certificate, written from given ranks: the header, the rows, and the four runs of ranks.
#![tactic(auto)]

ghost use Rattle.std.specs.Prelude.{◌≡◌, ◌*◌, ◌≤◌, ◌<◌, length};
ghost use Rattle.lists.specs.Lists.{tabulate, grid, put_front};
ghost use Rattle.certificates.specs.Layout.{certificate_header_length, row_length, certificate_length};
ghost use Rattle.files.specs.File.{certificate_header, certificate_file};
ghost use Rattle.files.specs.Writer.{cell_in, ranks_in, file_written};

use certificates::Sizes;
use lists::{byte, put_be, put_front};
use tables::Head;

// The ranks of two tables, in four grids with rows of 64 bytes: the left A rank of s at t in al at 64 s + t, the right A rank of t at s in ar at 64 t + s,
// the left C rank of step j at t in cl at 64 j + t, the right C rank of step k at s in cr at 64 k + s; past the end of a grid stand zeros.
#[derive(Clone, Copy)]
pub struct Grids<'a> {
    pub al: &'a [u8],
    pub ar: &'a [u8],
    pub cl: &'a [u8],
    pub cr: &'a [u8],
}

// Row i of a grid of ranks, over a part of at most 255 bytes.
fn put_row(ranks: &[u8], i: usize, row: &mut [u8])
    requires { (i < 65536) × (length row.old < 256) }
    ensures { row.new ≡ tabulate (length row.old) (cell_in ranks.now i) }
{
    for (t, rank) in row.iter_mut().enumerate() {
        *rank = byte(ranks, i * Head::MAX_STATES + t) as u8;
    }
}

// The first n rows of a grid of ranks, m bytes of each, over a run of n rows of m.
fn put_run(ranks: &[u8], n: usize, m: usize, run: &mut [u8])
    requires { (n < 65536) × (m < 256) × (length run.old ≡ n * m) }
    ensures { run.new ≡ grid n m (cell_in ranks.now) }
{
    for i in 0..n {
        let a = i * m;
        put_row(ranks, i, &mut run[a..a + m]);
    }
}

// The header, over a part of its length.
fn put_header(sizes: Sizes, header: &mut [u8])
    requires { length header.old ≡ certificate_header_length }
    ensures { header.new ≡ certificate_header sizes }
{
    put_be(header, 0, 1, Head::MAGIC_1 as u64);
    put_be(header, 1, 1, Head::MAGIC_2 as u64);
    put_be(header, 2, 1, Sizes::CERTIFICATE as u64);
    put_be(header, 3, 2, Sizes::VERSION);
    put_be(header, 5, 1, u64::from(sizes.n1));
    put_be(header, 6, 1, u64::from(sizes.n2));
    put_be(header, 7, 2, u64::from(sizes.m1));
    put_be(header, 9, 2, u64::from(sizes.m2));
}

// The header, the rows and the four runs, each a part of the output that begins where the one before ends.
fn write_parts(relation: &[u8], sizes: Sizes, grids: Grids, output: &mut [u8])
    requires relation_len { length relation.now ≡ row_length * sizes.n1 }
    requires sizes_in_bounds { certificate_length sizes ≤ length output.old }
    ensures { output.new ≡ put_front (certificate_file sizes relation.now
        (ranks_in grids.entry.al.now grids.entry.ar.now grids.entry.cl.now grids.entry.cr.now)) output.old }
{
    let n1 = sizes.n1 as usize;
    let n2 = sizes.n2 as usize;
    let m1 = sizes.m1 as usize;
    let m2 = sizes.m2 as usize;
    let runs = sizes.runs();
    let end = sizes.length();
    put_header(sizes, &mut output[0..Sizes::HEADER]);
    put_front(relation, &mut output[Sizes::HEADER..runs.al]);
    put_run(grids.al, n1, n2, &mut output[runs.al..runs.ar]);
    put_run(grids.ar, n2, n1, &mut output[runs.ar..runs.cl]);
    put_run(grids.cl, m1, n2, &mut output[runs.cl..runs.cr]);
    put_run(grids.cr, m2, n1, &mut output[runs.cr..end]);
}

// Writes the certificate with these rows and ranks over the front of the output. Where the rows are not 8 n1 bytes, or the output has no room, the output
// stays as it is.
pub fn fill(relation: &[u8], sizes: Sizes, grids: Grids, output: &mut [u8])
    ensures { output.new ≡ file_written sizes relation.now
        (ranks_in grids.entry.al.now grids.entry.ar.now grids.entry.cl.now grids.entry.cr.now) output.old }
{
    if relation.len() != Sizes::ROW * usize::from(sizes.n1) || output.len() < sizes.length() {
        return;
    }
    write_parts(relation, sizes, grids, output);
}
