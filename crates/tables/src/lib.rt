// State tables: where each field of a file lies, and reading one. For every byte string, whether or not it is a good table.
#![tactic(auto)]

ghost use Rattle.std.specs.Prelude.{◌≡◌, ◌+◌, ◌*◌, ◌<◌};
ghost use Rattle.lists.specs.Numbers.{byte_at};
ghost use Rattle.tables.specs.Table.{one_start_layout, start_word_layout, layout_of, format_of};
ghost use Rattle.tables.specs.Table.{keyed, version_of, last_version, format_in, states_of, start_of, starts_of, initial_of, steps_of};
ghost use Rattle.tables.specs.Table.{steps_at, table_length, labels_part, steps_part, label_of, from_of, to_of, key_of};

use lists::{byte, part_of, read_be, read_be16};
use words::Row;

// The format of a table: by its version, or that of tables whose steps have keys.
#[derive(Clone, Copy)]
pub enum Format {
    Version1,
    Version2,
    Version3,
    Version4,
    Keyed,
}

// Where the fields of a format stand and how wide they are. The first six bytes are the same in all, and the starts follow them.
#[derive(Clone, Copy)]
pub struct Layout {
    // The bytes of the header.
    pub header: usize,
    // Whether the starts are a word of 8 bytes, and not the byte of one start.
    pub word: bool,
    // Where the number of steps stands.
    pub count: usize,
    // The bytes of a label and of a step.
    pub label: usize,
    pub step: usize,
    // Whether the steps rise; otherwise they may stand in any order.
    pub rising: bool,
    // Whether each step has a key, its third byte.
    pub keyed: bool,
}

// What the header of a good table says; `initial` is the set of initial states.
#[derive(Clone, Copy)]
pub struct Head {
    pub format: Format,
    pub states: usize,
    pub steps: usize,
    pub initial: Row,
}

impl Layout {
    // The bytes of a header with one start, and of one with a start word.
    pub const ONE_START: usize = 9;

    pub const START_WORD: usize = 16;

    // Where the starts stand.
    pub const STARTS: usize = 6;

    // One start, labels of 16 bits, and steps that rise or stand in any order.
    fn with_one_start(rising: bool) -> Self
        ensures { result ≡ one_start_layout rising }
    {
        Layout {
            header: Layout::ONE_START,
            word: false,
            count: 7,
            label: 2,
            step: 2,
            rising,
            keyed: false,
        }
    }

    // A start word, labels and steps of so many bytes, and steps that rise; they have keys or not.
    fn with_start_word(label: usize, step: usize, keyed: bool) -> Self
        ensures { result ≡ start_word_layout label step keyed }
    {
        Layout {
            header: Layout::START_WORD,
            word: true,
            count: 14,
            label,
            step,
            rising: true,
            keyed,
        }
    }
}

impl Format {
    // The last version of tables without keys, and of those with keys; the first is 1.
    pub const LAST_VERSION: usize = 4;

    pub const LAST_KEYED_VERSION: usize = 1;

    // The format of a version, of tables with or without keys; a number that is no version counts as the last.
    #[tactic(auto, unfolding(crate::specs::Table::format_of))]
    pub fn of(keyed: bool, version: usize) -> Self
        ensures { result ≡ format_of keyed version }
    {
        match (keyed, version) {
            (true, _) => Format::Keyed,
            (false, 1) => Format::Version1,
            (false, 2) => Format::Version2,
            (false, 3) => Format::Version3,
            (false, _) => Format::Version4,
        }
    }

    // The layout of the format.
    #[tactic(auto, unfolding(crate::specs::Table::layout_of))]
    pub fn layout(self) -> Layout
        ensures { result ≡ layout_of self }
    {
        match self {
            Format::Version1 => Layout::with_one_start(false),
            Format::Version2 => Layout::with_one_start(true),
            Format::Version3 => Layout::with_start_word(2, 2, false),
            Format::Version4 => Layout::with_start_word(4, 2, false),
            Format::Keyed => Layout::with_start_word(4, 3, true),
        }
    }
}

impl Head {
    // The most states of a table.
    pub const MAX_STATES: usize = 64;

    // The most steps of a table.
    pub const MAX_STEPS: usize = 256;

    // The first byte of a table and of a certificate, "T".
    pub const MAGIC_1: usize = 0x54;

    // The second byte of a table and of a certificate, "P".
    pub const MAGIC_2: usize = 0x50;

    // The third byte of a table without keys, "T".
    pub const TABLE: usize = 0x54;

    // The third byte of a table with keys, "K".
    pub const KEYED_TABLE: usize = 0x4B;
}

// Whether the steps have keys, by the third byte.
#[tactic(auto, unfolding(crate::specs::Table::keyed))]
pub fn is_keyed(s: &[u8]) -> bool
    ensures { result ≡ keyed s.now }
{
    byte(s, 2) == Head::KEYED_TABLE
}

// The version that the header gives.
#[tactic(auto, unfolding(crate::specs::Table::version_of))]
pub fn version(s: &[u8]) -> usize
    ensures { result ≡ version_of s.now }
{
    read_be16(s, 3) as usize
}

// The last version that is read of this kind of table; the first is 1.
#[tactic(auto, unfolding(crate::specs::Table::last_version))]
pub fn last_version(s: &[u8]) -> usize
    ensures { result ≡ last_version s.now }
{
    if is_keyed(s) {
        Format::LAST_KEYED_VERSION
    } else {
        Format::LAST_VERSION
    }
}

// The format of a file, by its kind and its version.
#[tactic(auto, unfolding(crate::specs::Table::format_in))]
pub fn format_of(s: &[u8]) -> Format
    ensures { result ≡ format_in s.now }
{
    Format::of(is_keyed(s), version(s))
}

// The number of states that the header gives.
#[tactic(auto, unfolding(crate::specs::Table::states_of))]
pub fn states(s: &[u8]) -> usize
    ensures value { result ≡ states_of s.now }
    ensures small { result < 256 }
{
    byte(s, 5)
}

// The start that a header without a start word gives.
#[tactic(auto, unfolding(crate::specs::Table::start_of))]
pub fn start(s: &[u8]) -> usize
    ensures { result ≡ start_of s.now }
{
    byte(s, Layout::STARTS)
}

// The start word, as a set of states.
#[tactic(auto, unfolding(crate::specs::Table::starts_of))]
pub fn starts(s: &[u8]) -> Row
    ensures { result.0 ≡ starts_of s.now }
{
    Row::read(s, Layout::STARTS)
}

// The set of initial states: the start word, or the one start.
#[tactic(auto, unfolding(crate::specs::Table::initial_of, crate::specs::Table::start_word))]
pub fn initial(s: &[u8]) -> Row
    ensures { result.0 ≡ initial_of s.now }
{
    let layout = format_of(s).layout();
    if layout.word {
        starts(s)
    } else {
        Row::empty().add(start(s))
    }
}

// The number of steps that the header gives.
#[tactic(auto, unfolding(crate::specs::Table::steps_of))]
pub fn step_count(s: &[u8]) -> usize
    ensures value { result ≡ steps_of s.now }
    ensures small { result < 65536 }
{
    let layout = format_of(s).layout();
    read_be16(s, layout.count) as usize
}

// Where the steps begin, after the header and the labels.
#[tactic(auto, unfolding(crate::specs::Table::steps_at))]
fn steps_at(s: &[u8]) -> usize
    ensures value { result ≡ steps_at s.now }
    ensures small { result < 65536 }
{
    let layout = format_of(s).layout();
    layout.header + states(s) * layout.label
}

// The length that a table with this header has: the header, the labels and the steps.
#[tactic(auto, unfolding(crate::specs::Table::table_length))]
pub fn table_length(s: &[u8]) -> usize
    ensures { result ≡ table_length s.now }
{
    let layout = format_of(s).layout();
    steps_at(s) + step_count(s) * layout.step
}

// The labels of a table, as the part of the file that holds them.
#[tactic(auto, unfolding(crate::specs::Table::labels_part))]
pub fn labels(s: &[u8]) -> &[u8]
    ensures { result.now ≡ labels_part s.now }
{
    let layout = format_of(s).layout();
    let a = layout.header;
    let e = steps_at(s);
    part_of(s, a, e)
}

// The steps of a table, as the part of the file that holds them.
#[tactic(auto, unfolding(crate::specs::Table::steps_part))]
pub fn steps(s: &[u8]) -> &[u8]
    ensures { result.now ≡ steps_part s.now }
{
    let a = steps_at(s);
    let e = table_length(s);
    part_of(s, a, e)
}

// The label of a state, from the part that holds the labels; 0 past the end. A label has two bytes or more.
pub fn label(labels: &[u8], format: Format, state: usize) -> u64
    ensures { result ≡ label_of format labels.now state }
{
    let layout = format.layout();
    if labels.len() / 2 < state {
        return 0;
    }
    read_be(labels, state * layout.label, layout.label)
}

// Byte k of step j, from the part that holds the steps; 0 past the end. A step has two bytes or more.
fn byte_of_step(steps: &[u8], format: Format, j: usize, k: usize) -> usize
    requires { k < 3 }
    ensures value { result ≡ byte_at steps.now (j * (layout_of format).step + k) }
    ensures small { result < 256 }
{
    let layout = format.layout();
    if steps.len() / 2 < j {
        return 0;
    }
    byte(steps, j * layout.step + k)
}

// The state that step j leaves, from the part that holds the steps; 0 past the end.
#[tactic(auto, unfolding(crate::specs::Table::from_of))]
pub fn from(steps: &[u8], format: Format, j: usize) -> usize
    ensures value { result ≡ from_of format steps.now j }
    ensures small { result < 256 }
{
    byte_of_step(steps, format, j, 0)
}

// The state that step j enters, from the part that holds the steps; 0 past the end.
#[tactic(auto, unfolding(crate::specs::Table::to_of))]
pub fn to(steps: &[u8], format: Format, j: usize) -> usize
    ensures value { result ≡ to_of format steps.now j }
    ensures small { result < 256 }
{
    byte_of_step(steps, format, j, 1)
}

// The key of step j, from the part that holds the steps; 0 past the end, and where steps have no keys.
#[tactic(auto, unfolding(crate::specs::Table::key_of))]
pub fn key(steps: &[u8], format: Format, j: usize) -> usize
    ensures value { result ≡ key_of format steps.now j }
    ensures small { result < 256 }
{
    if format.layout().keyed {
        byte_of_step(steps, format, j, 2)
    } else {
        0
    }
}
