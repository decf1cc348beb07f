// The one form in which two read tables and a relation are handed on. The relation is a word for each state: the states related to it. A side is all
// that is asked of one table and of the relation, worked out once a call: every fact of a state or of a step is one read, and the steps from a state
// are linked in their order.
#![tactic(auto)]

ghost use Rattle.std.specs.Prelude.{◌≡◌, ◌^◌, ◌≤◌, ◌<◌, set};
ghost use Rattle.std.specs.Iterator.{YieldsFirst, item_count};
ghost use Rattle.sides.specs.Side.{steps_in, steps_left};
ghost use Rattle.sides.specs.Side.{system_in, start_word_in, key_at, related_to, silent_from, first_step, link_at, group_at, entered_by};
ghost use Rattle.sides.specs.Built.{SideOf};
ghost use Rattle.sides.specs.Building.{put_entered, relinked};

use tables::Head;
use words::Row;

// One table and the relation, seen from it. A number of states or of steps above the limits counts as the limit.
#[derive(Clone, Copy)]
pub struct Side {
    pub states: usize,
    pub steps: usize,
    // The initial states, and whether the table has a start word.
    pub initial: Row,
    pub word: bool,
    // For each state the states related to it, those that its silent steps enter, the first step from it, and its label.
    pub related: [u64; Head::MAX_STATES],
    pub silent: [u64; Head::MAX_STATES],
    pub first: [usize; Head::MAX_STATES],
    pub label: [u64; Head::MAX_STATES],
    // For each step the next step from the same state, the states that it leaves and enters, its key, and the states that it and the later steps with its
    // key from the same state enter.
    pub next: [usize; Head::MAX_STEPS],
    pub from: [usize; Head::MAX_STEPS],
    pub to: [usize; Head::MAX_STEPS],
    pub key: [usize; Head::MAX_STEPS],
    pub group: [u64; Head::MAX_STEPS],
}

// A walk along the links of a side: `next` is the link that is followed next. One to a step below `least` leads nowhere, as one past the last step does.
#[derive(Clone, Copy)]
pub struct StepsFrom<'a> {
    side: &'a Side,
    next: usize,
    least: usize,
}

impl<'a> Iterator for StepsFrom<'a> {
    type Item = usize;

    ghost next_gives = { YieldsFirst steps_left };

    ghost remaining = { item_count steps_left };

    fn next(&mut self) -> Option<usize> {
        // Whether a link leads on is told when it is followed: told before, it would be a choice between two numbers, for which the next read has to wait.
        let j = self.next;
        if self.least <= j && j < Head::MAX_STEPS {
            self.next = self.side.next(j);
            self.least = j + 1;
            return Some(j);
        }
        None
    }
}

// Two sides, seen from the first.
#[derive(Clone, Copy)]
pub struct View<'a> {
    pub ours: &'a Side,
    pub theirs: &'a Side,
}

impl<'a> View<'a> {
    // The same two, seen from the other.
    pub fn turned(self) -> View<'a>
        ensures ours { result.ours.now ≡ self.entry.theirs.now }
        ensures theirs { result.theirs.now ≡ self.entry.ours.now }
    {
        View {
            ours: self.theirs,
            theirs: self.ours,
        }
    }
}

// A word, which has 64 bits.
fn word(x: u64) -> u64
    ensures value { result ≡ x }
    ensures small { result < 2 ^ 64 }
{
    x
}

// Stores x at i; past the end nothing changes.
fn put<T: Copy>(items: &mut [T], i: usize, x: T)
    ensures { items.new ≡ set items.old i x }
{
    if i < items.len() {
        items[i] = x;
    }
}

impl Side {
    // ---- what a side says

    // The number of states.
    pub fn states(&self) -> usize
        ensures value { result ≡ (system_in self.now).states }
        ensures small { result ≤ 64 }
    {
        self.states.min(Head::MAX_STATES)
    }

    // The number of steps.
    pub fn step_count(&self) -> usize
        ensures value { result ≡ (system_in self.now).steps }
        ensures small { result ≤ 256 }
    {
        self.steps.min(Head::MAX_STEPS)
    }

    // The initial states.
    pub fn initial(&self) -> Row
        ensures value { result.0 ≡ self.now.initial.0 }
        ensures small { result.0 < 2 ^ 64 }
    {
        Row(word(self.initial.0))
    }

    // Whether the table has a start word.
    pub fn has_start_word(&self) -> bool
        ensures { result ≡ start_word_in self.now }
    {
        self.word
    }

    // The states of the other side that are related to s.
    #[tactic(auto, unfolding(crate::specs::Side::related_to))]
    pub fn related(&self, s: usize) -> Row
        ensures value { result.0 ≡ related_to self.now s }
        ensures small { result.0 < 2 ^ 64 }
    {
        Row(self.related.get(s).copied().unwrap_or(0))
    }

    // The states that silent steps from s enter.
    pub fn silent(&self, s: usize) -> Row
        ensures value { result.0 ≡ silent_from self.now s }
        ensures small { result.0 < 2 ^ 64 }
    {
        Row(self.silent.get(s).copied().unwrap_or(0))
    }

    // The label of s.
    pub fn label(&self, s: usize) -> u64
        ensures { result ≡ (system_in self.now).label s }
    {
        self.label.get(s).copied().unwrap_or(0)
    }

    // The first step from s, and 256 where there is none.
    pub fn first(&self, s: usize) -> usize
        ensures { result ≡ first_step self.now s }
    {
        self.first.get(s).copied().unwrap_or(Head::MAX_STEPS)
    }

    // The step after j from the same state; one that is not later than j stands for none.
    pub fn next(&self, j: usize) -> usize
        ensures { result ≡ link_at self.now j }
    {
        self.next.get(j).copied().unwrap_or(0)
    }

    // The steps from s, along the links.
    pub fn steps_from(&self, s: usize) -> StepsFrom<'_>
        ensures { steps_left result ≡ steps_in self.now s }
    {
        StepsFrom {
            side: self,
            next: self.first(s),
            least: 0,
        }
    }

    // The state that step j leaves.
    pub fn from(&self, j: usize) -> usize
        ensures { result ≡ (system_in self.now).from j }
    {
        self.from.get(j).copied().unwrap_or(0)
    }

    // The state that step j enters.
    pub fn to(&self, j: usize) -> usize
        ensures { result ≡ (system_in self.now).to j }
    {
        self.to.get(j).copied().unwrap_or(0)
    }

    // The key of step j; 0 is that of a silent step.
    pub fn key(&self, j: usize) -> usize
        ensures { result ≡ key_at self.now j }
    {
        self.key.get(j).copied().unwrap_or(0)
    }

    // The states that step j and the later steps with its key from the same state enter.
    fn group(&self, j: usize) -> Row
        ensures value { result.0 ≡ group_at self.now j }
        ensures small { result.0 < 2 ^ 64 }
    {
        Row(self.group.get(j).copied().unwrap_or(0))
    }

    // The states that steps with this key from s enter, found along the links.
    pub fn entered_by(&self, s: usize, by: usize) -> Row
        ensures value { result.0 ≡ entered_by self.now s by }
        ensures small { result.0 < 2 ^ 64 }
    {
        if by == 0 {
            return self.silent(s);
        }
        for j in self.steps_from(s) {
            if self.key(j) == by {
                return self.group(j);
            }
        }
        Row::empty()
    }

    // ---- how a side is made

    // Stores the states that steps with the key of step j from s enter, from j on: of a silent step at s, of any other at j.
    fn put_entered(&mut self, s: usize, j: usize, by: usize, states: Row)
        ensures { self.new ≡ put_entered self.old s j by states.0 }
    {
        if by == 0 {
            put(&mut self.silent, s, states.0);
        } else {
            put(&mut self.group, j, states.0);
        }
    }

    // Links step j before the later steps from the same state, and stores the states that it and those of them with its key enter.
    fn link(&mut self, j: usize)
        ensures { self.new ≡ relinked self.old j }
    {
        let s = self.from(j);
        let by = self.key(j);
        let later = self.first(s);
        let states = self.entered_by(s, by);
        let more = states.add(self.to(j));
        self.put_entered(s, j, by, more);
        put(&mut self.first, s, j);
        put(&mut self.next, j, later);
    }

    // The side of a table, from its header and the parts that hold its labels and its steps, with the states related to each of its states.
    pub fn of(head: Head, labels: &[u8], steps: &[u8], words: &[u64; Head::MAX_STATES]) -> Self
        ensures { SideOf head labels.now steps.now words.now result }
    {
        let format = head.format;
        let mut side = Side {
            states: head.states,
            steps: head.steps,
            initial: head.initial,
            word: format.layout().word,
            related: *words,
            silent: [0; Head::MAX_STATES],
            first: [Head::MAX_STEPS; Head::MAX_STATES],
            label: [0; Head::MAX_STATES],
            next: [0; Head::MAX_STEPS],
            from: [0; Head::MAX_STEPS],
            to: [0; Head::MAX_STEPS],
            key: [0; Head::MAX_STEPS],
            group: [0; Head::MAX_STEPS],
        };
        for s in 0..Head::MAX_STATES {
            side.label[s] = tables::label(labels, format, s);
        }
        for j in 0..head.steps.min(Head::MAX_STEPS) {
            side.from[j] = tables::from(steps, format, j);
            side.to[j] = tables::to(steps, format, j);
            side.key[j] = tables::key(steps, format, j);
        }
        for j in (0..side.step_count()).rev() {
            side.link(j);
        }
        side
    }
}
