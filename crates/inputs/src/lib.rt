// Two tables and a relation between them, read together: the headers of the two tables, or the answer that refuses one of the three, or the two tables for
// being of different kinds.
#![tactic(auto)]

ghost use Rattle.std.specs.Prelude.{◌≡◌};
ghost use Rattle.inputs.specs.Inputs.{read_verdict};

use answers::Answer;
use certificate_reader::read_relation;
use certificates::Sizes;
use table_pairs::{Heads, read_tables};
use table_reader::Known;

// Reads the left table, the right table, and the relation between them. Each read is taken apart by let else: the product's forms ask for it
// (docs/DECISIONS.md 14).
#[tactic(auto, unfolding(crate::specs::Inputs::read_verdict))]
pub fn read(left: &[u8], right: &[u8], relation: &[u8]) -> Result<Heads, Answer>
    ensures { result ≡ read_verdict left.now right.now relation.now }
{
    let tables = read_tables(left, right, Known::Both);
    let Ok(heads) = tables else {
        return tables;
    };
    let third = read_relation(relation, Sizes::of(heads.left, heads.right));
    let Ok(_) = third else {
        return Err(third.unwrap_err().answer(2));
    };
    tables
}
