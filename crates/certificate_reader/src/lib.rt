// The readers of certificates and of relations: for every byte string its sizes, or the one refusal whose condition and place in the order fit.
#![tactic(auto)]

ghost use Rattle.std.specs.Prelude.{◌≡◌};
ghost use Rattle.lists.specs.Below.{found_below};
ghost use Rattle.certificate_reader.specs.CertificateReading.{certificate_sizes_fit, wide_row, read_header, read_certificate, read_relation};

use certificates::{Sizes, row, rows};
use lists::{byte, read_be16};
use refusals::{CertificateRefusal, RelationRefusal};
use table_reader::magic_fits;

// The first of n1 rows that has a bit n2 or more.
fn first_wide_row(rows: &[u8], n1: usize, n2: usize) -> Option<usize>
    ensures { result ≡ found_below n1 (wide_row rows.now n2) }
{
    (0..n1).find(|&s| row(rows, s).has_from(n2))
}

// Whether the header has these sizes.
#[tactic(auto, unfolding(crate::specs::CertificateReading::certificate_sizes_fit))]
fn sizes_fit(certificate: &[u8], sizes: Sizes) -> bool
    ensures { result ≡ certificate_sizes_fit sizes certificate.now }
{
    byte(certificate, 5) == usize::from(sizes.n1)
        && byte(certificate, 6) == usize::from(sizes.n2)
        && read_be16(certificate, 7) == u64::from(sizes.m1)
        && read_be16(certificate, 9) == u64::from(sizes.m2)
}

// Causes 10 to 14.
#[tactic(auto, unfolding(crate::specs::CertificateReading::read_header))]
fn read_header(certificate: &[u8], sizes: Sizes) -> Result<Sizes, CertificateRefusal>
    ensures { result ≡ read_header sizes certificate.now }
{
    if certificate.len() < Sizes::HEADER {
        return Err(CertificateRefusal::Short);
    }
    if !magic_fits(certificate, Sizes::CERTIFICATE) {
        return Err(CertificateRefusal::Magic);
    }
    if read_be16(certificate, 3) != Sizes::VERSION {
        return Err(CertificateRefusal::Version);
    }
    if !sizes_fit(certificate, sizes) {
        return Err(CertificateRefusal::Sizes);
    }
    if certificate.len() != sizes.length() {
        return Err(CertificateRefusal::Length);
    }
    Ok(sizes)
}

// Causes 10 to 15, in this order: the sizes of the certificate, or its refusal.
#[tactic(auto, unfolding(crate::specs::CertificateReading::read_certificate, crate::specs::CertificateReading::read_rows))]
pub fn read_certificate(certificate: &[u8], sizes: Sizes) -> Result<Sizes, CertificateRefusal>
    ensures { result ≡ read_certificate sizes certificate.now }
{
    let read = read_header(certificate, sizes);
    let Ok(found) = read else {
        return read;
    };
    let rows = rows(certificate, found);
    match first_wide_row(rows, usize::from(found.n1), usize::from(found.n2)) {
        Some(s) => Err(CertificateRefusal::RowBit(s)),
        None => Ok(found),
    }
}

// Causes 20 and 15, in this order: the sizes of the relation, or its refusal.
#[tactic(auto, unfolding(crate::specs::CertificateReading::read_relation))]
pub fn read_relation(relation: &[u8], sizes: Sizes) -> Result<Sizes, RelationRefusal>
    ensures { result ≡ read_relation sizes relation.now }
{
    let n1 = usize::from(sizes.n1);
    if relation.len() != Sizes::ROW * n1 {
        return Err(RelationRefusal::Length);
    }
    match first_wide_row(relation, n1, usize::from(sizes.n2)) {
        Some(s) => Err(RelationRefusal::RowBit(s)),
        None => Ok(sizes),
    }
}
