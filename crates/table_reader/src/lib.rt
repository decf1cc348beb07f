// The reader of state tables: for every byte string a header, or the one refusal whose condition and place in the order fit.
#![tactic(auto)]

ghost use Rattle.std.specs.Prelude.{◌≡◌};
ghost use Rattle.tables.specs.Table.{magic_fits, from_of, to_of};
ghost use Rattle.table_reader.specs.TableReading.{magic_known, head_of, wrong_starts, read_length, read_sizes, read_header, read_known};
ghost use Rattle.table_reader.specs.TableReading.{ends_outside, doubled, greater, not_greater};
ghost use Rattle.table_reader.specs.EndsSeen.{EndsBelow};
ghost use Rattle.table_reader.specs.TableVerdicts.{table_verdict};
ghost use Rattle.answers.specs.Verdicts.{refusal_of};
ghost use Rattle.lists.specs.Below.{found_below};

use answers::Answer;
use lists::byte;
use refusals::TableRefusal;
use tables::{
    Format, Head, Layout, format_of, from, initial, key, last_version, start, starts, states,
    step_count, steps, table_length, to, version,
};
use words::Row;

// The kinds of table that a reader knows: those without keys and those with keys, or those without keys alone.
#[derive(Clone, Copy)]
pub enum Known {
    Both,
    Plain,
}

// Whether the first three bytes are "TP" and this third one.
#[tactic(auto, unfolding(tables::specs::Table::magic_fits))]
pub fn magic_fits(s: &[u8], third: usize) -> bool
    ensures { result ≡ magic_fits third s.now }
{
    byte(s, 0) == Head::MAGIC_1 && byte(s, 1) == Head::MAGIC_2 && byte(s, 2) == third
}

// Whether the first three bytes are those of a table of a kind that is known.
#[tactic(auto, unfolding(crate::specs::TableReading::magic_known))]
fn magic_known(s: &[u8], known: Known) -> bool
    ensures { result ≡ magic_known known s.now }
{
    match known {
        Known::Both => magic_fits(s, Head::TABLE) || magic_fits(s, Head::KEYED_TABLE),
        Known::Plain => magic_fits(s, Head::TABLE),
    }
}

// What the header says, whether or not the table is good.
pub fn head_of(s: &[u8]) -> Head
    ensures { result ≡ head_of s.now }
{
    Head {
        format: format_of(s),
        states: states(s),
        steps: step_count(s),
        initial: initial(s),
    }
}

// Causes 6 and 7.
#[tactic(auto, unfolding(crate::specs::TableReading::read_length))]
fn read_length(s: &[u8]) -> Result<Head, TableRefusal>
    ensures { result ≡ read_length s.now }
{
    if Head::MAX_STEPS < step_count(s) {
        return Err(TableRefusal::Steps);
    }
    if s.len() != table_length(s) {
        return Err(TableRefusal::Length);
    }
    Ok(head_of(s))
}

// Whether the start word of n states is 0 or has a bit n or more.
#[tactic(auto, unfolding(crate::specs::TableReading::wrong_starts))]
pub fn starts_wrong(word: Row, n: usize) -> bool
    ensures { result ≡ wrong_starts word.0 n }
{
    word.is_empty() || word.has_from(n)
}

// Cause 1 of a header that is longer than 9 bytes, then 4, then 5 of one start and 28 of a start word, then 6 and 7.
#[tactic(auto, unfolding(crate::specs::TableReading::read_sizes, crate::specs::TableReading::states_fit, tables::specs::Table::start_word))]
fn read_sizes(s: &[u8]) -> Result<Head, TableRefusal>
    ensures { result ≡ read_sizes s.now }
{
    let layout = format_of(s).layout();
    if s.len() < layout.header {
        return Err(TableRefusal::Short);
    }
    let n = states(s);
    if n < 1 || Head::MAX_STATES < n {
        return Err(TableRefusal::States);
    }
    if !layout.word && n <= start(s) {
        return Err(TableRefusal::Start);
    }
    if layout.word && starts_wrong(starts(s), n) {
        return Err(TableRefusal::Starts);
    }
    read_length(s)
}

// Causes 1 to 3, then the others of the header.
#[tactic(auto, unfolding(crate::specs::TableReading::read_header, crate::specs::TableReading::version_fits))]
fn read_header(s: &[u8], known: Known) -> Result<Head, TableRefusal>
    ensures { result ≡ read_header known s.now }
{
    if s.len() < Layout::ONE_START {
        return Err(TableRefusal::Short);
    }
    if !magic_known(s, known) {
        return Err(TableRefusal::Magic);
    }
    let version = version(s);
    if version < 1 || last_version(s) < version {
        return Err(TableRefusal::Version);
    }
    read_sizes(s)
}

// The first of m steps with an end of n or more.
fn first_outside(steps: &[u8], format: Format, n: usize, m: usize) -> Option<usize>
    ensures { result ≡ found_below m (ends_outside format steps.now n) }
{
    (0..m).find(|&j| n <= from(steps, format, j) || n <= to(steps, format, j))
}

// The first of m steps that equals an earlier one; their ends are below 64. One word of ends seen for each state has a bit exactly where a step so far has
// that from and to.
fn first_doubled(steps: &[u8], format: Format, m: usize) -> Option<usize>
    requires { EndsBelow 64 (from_of format steps.now) (to_of format steps.now) m }
    ensures { result ≡ found_below m (doubled format steps.now) }
{
    let mut seen: [Row; Head::MAX_STATES] = [Row::empty(); Head::MAX_STATES];
    for j in 0..m {
        let s = from(steps, format, j);
        let u = to(steps, format, j);
        let ends = seen[s];
        if ends.has(u) {
            return Some(j);
        }
        seen[s] = ends.add(u);
    }
    None
}

// Whether the one step is greater than the other: by from, then by to, then by key.
#[tactic(auto, unfolding(crate::specs::TableReading::greater))]
fn is_greater(steps: &[u8], format: Format, later: usize, earlier: usize) -> bool
    ensures { result ≡ greater format steps.now later earlier }
{
    let s = from(steps, format, earlier);
    let t = from(steps, format, later);
    let u = to(steps, format, earlier);
    let v = to(steps, format, later);
    let k = key(steps, format, earlier);
    let l = key(steps, format, later);
    (s, u, k) < (t, v, l)
}

// The first of m steps that is not greater than the one before it. Step 0 has none before it.
fn first_not_greater(steps: &[u8], format: Format, m: usize) -> Option<usize>
    ensures { result ≡ found_below m (not_greater format steps.now) }
{
    (1..m).find(|&later| !is_greater(steps, format, later, later - 1))
}

// The causes of the header, then 8, then by the format 24 or 9: the header of a table of the kinds that are known, or its refusal.
#[tactic(auto, unfolding(crate::specs::TableReading::read_known, crate::specs::TableReading::read_steps))]
pub fn read_table(s: &[u8], known: Known) -> Result<Head, TableRefusal>
    ensures { result ≡ read_known known s.now }
{
    let read = read_header(s, known);
    let Ok(head) = read else {
        return read;
    };
    let format = head.format;
    let steps = steps(s);
    if let Some(outside) = first_outside(steps, format, head.states, head.steps) {
        return Err(TableRefusal::StepEnd(outside));
    }
    let layout = format.layout();
    if layout.rising {
        return match first_not_greater(steps, format, head.steps) {
            Some(late) => Err(TableRefusal::NotGreater(late)),
            None => Ok(head),
        };
    }
    match first_doubled(steps, format, head.steps) {
        Some(doubled) => Err(TableRefusal::Doubled(doubled)),
        None => Ok(head),
    }
}

// The answer of a table's read that is no header; for a header it is blank.
#[tactic(auto, unfolding(crate::specs::TableVerdicts::table_verdict))]
pub fn table_answer(read: Result<Head, TableRefusal>, file: usize) -> Answer
    ensures { result ≡ refusal_of (table_verdict file read) }
{
    match read {
        Ok(_) => Answer::of(0, 0, 0),
        Err(refusal) => refusal.answer(file),
    }
}
