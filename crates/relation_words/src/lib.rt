// The relation of two tables as words, one for each state of a side: the states of the other side that are related to it.
#![tactic(auto)]

ghost use Rattle.std.specs.Prelude.{◌≡◌};
ghost use Rattle.relation_words.specs.Relation.{row_word, row_words, column_word, column_words};

use certificates::row;
use tables::Head;
use words::Row;

// Row s, and the empty word for s of n1 or more.
fn row_word(rows: &[u8], n1: usize, s: usize) -> Row
    ensures { result.0 ≡ row_word rows.now n1 s }
{
    if s < n1 { row(rows, s) } else { Row::empty() }
}

// The states below 64 whose word has t.
fn column_word(words: &[u64; Head::MAX_STATES], t: usize) -> Row
    ensures { result.0 ≡ column_word words.now t 64 }
{
    let mut states = Row::empty();
    for (s, word) in words.iter().enumerate() {
        if Row(*word).has(t) {
            states = states.add(s);
        }
    }
    states
}

// The rows as words: row s for s below n1 and below 64, and empty words after them.
pub fn row_words(rows: &[u8], n1: usize) -> [u64; Head::MAX_STATES]
    ensures { result ≡ row_words rows.now n1 }
{
    let mut words: [u64; Head::MAX_STATES] = [0; Head::MAX_STATES];
    for (s, word) in words.iter_mut().enumerate() {
        *word = row_word(rows, n1, s).0;
    }
    words
}

// The relation turned round: word t has the states below 64 whose word has t.
pub fn column_words(words: &[u64; Head::MAX_STATES]) -> [u64; Head::MAX_STATES]
    ensures { result ≡ column_words words.now }
{
    let mut columns: [u64; Head::MAX_STATES] = [0; Head::MAX_STATES];
    for (t, column) in columns.iter_mut().enumerate() {
        *column = column_word(words, t).0;
    }
    columns
}
