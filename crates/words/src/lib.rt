// A set of states below 64, as the bits of a word.
#![tactic(auto)]

ghost use Rattle.std.specs.Prelude.{◌≡◌, ◌≤◌, ◌<◌, eqb, Some, IfSome, MatchOption};
ghost use Rattle.std.specs.Int.Bits.{bit_and, bit_or};
ghost use Rattle.lists.specs.Numbers.{big_endian, big_bytes};
ghost use Rattle.lists.specs.Lists.{put_at};
ghost use Rattle.std.specs.Iterator.{at_most};
ghost use Rattle.lists.specs.Below.{some_below};
ghost use Rattle.words.specs.Walks.{next_state};
ghost use Rattle.words.specs.Bits.{has_bit, has_from, add_bit, remove_bit, without_bits, count_bits, first_bit};

// A set of states: state t is in it where the word has the bit of weight 2 to the power t.
#[derive(Clone, Copy)]
pub struct Row(pub u64);

// A walk over the states of a set in rising order: `rest` has those that are still to be met.
#[derive(Clone, Copy)]
pub struct States {
    pub rest: Row,
}

impl Iterator for States {
    type Item = usize;

    ghost next_gives = { λ before found after. next_state before.rest.0 found after.rest.0 };

    ghost remaining = { λ walk. at_most (count_bits walk.rest.0) };

    fn next(&mut self) -> Option<usize> {
        let (t, rest) = self.rest.split_first()?;
        self.rest = rest;
        Some(t)
    }
}

impl IntoIterator for Row {
    type Item = usize;

    type IntoIter = States;

    ghost into_iter_gives = { λ set walk. walk.rest ≡ set };

    fn into_iter(self) -> States {
        States { rest: self }
    }
}

impl Row {
    // No state.
    pub fn empty() -> Self
        ensures { result.0 ≡ 0 }
    {
        Row(0)
    }

    // Whether no state is in the set.
    pub fn is_empty(self) -> bool
        ensures { result ≡ eqb self.0 0 }
    {
        self.0 == 0
    }

    // Whether state t is in the set.
    pub fn has(self, t: usize) -> bool
        ensures { result ≡ has_bit self.0 t }
    {
        if 64 <= t {
            return false;
        }
        (self.0 >> t) % 2 == 1
    }

    // Whether a state of n or more is in the set.
    pub fn has_from(self, n: usize) -> bool
        ensures { result ≡ has_from self.0 n }
    {
        if n < 64 { self.0 >> n != 0 } else { false }
    }

    // The set with state t; a state of 64 or more changes nothing.
    pub fn add(self, t: usize) -> Self
        ensures { result.0 ≡ add_bit self.0 t }
    {
        if 64 <= t {
            return self;
        }
        Row(self.0 | (1 << t))
    }

    // The set without state t; a state of 64 or more changes nothing.
    pub fn remove(self, t: usize) -> Self
        ensures { result.0 ≡ remove_bit self.0 t }
    {
        if 64 <= t {
            return self;
        }
        Row(self.0 ^ (self.0 & (1 << t)))
    }

    // The states that are in both sets.
    pub fn intersect(self, other: Row) -> Self
        ensures { result.0 ≡ bit_and self.0 other.0 }
    {
        Row(self.0 & other.0)
    }

    // The states that are in either set.
    pub fn union(self, other: Row) -> Self
        ensures { result.0 ≡ bit_or self.0 other.0 }
    {
        Row(self.0 | other.0)
    }

    // The states of the set that are not in the other.
    pub fn without(self, other: Row) -> Self
        ensures { result.0 ≡ without_bits self.0 other.0 }
    {
        Row(self.0 ^ (self.0 & other.0))
    }

    // How many states are in the set.
    pub fn count(self) -> usize
        ensures { result ≡ count_bits self.0 }
    {
        u64::count_ones(self.0) as usize
    }

    // The smallest state of the set, and 64 where it has none.
    pub fn first(self) -> usize
        ensures { result ≡ first_bit self.0 }
    {
        u64::trailing_zeros(self.0) as usize
    }

    // The smallest state of the set, if there is one.
    pub fn smallest(self) -> Option<usize>
        ensures { result ≡ some_below 64 (first_bit self.0) }
    {
        let t = self.first();
        if t < 64 { Some(t) } else { None }
    }

    // The smallest state of the set, and the set without it.
    fn split_first(self) -> Option<(usize, Row)>
        ensures split { MatchOption result (64 ≤ first_bit self.0) (λ p. next_state self.0 (Some p.0) p.1.0) }
        ensures fewer { IfSome result (λ p. count_bits p.1.0 < count_bits self.0) }
    {
        let t = self.first();
        if 64 <= t {
            return None;
        }
        Some((t, self.remove(t)))
    }

    // The set in the 8 bytes of s from at on, the high byte first; past the end stand zeros.
    pub fn read(s: &[u8], at: usize) -> Self
        ensures { result.0 ≡ big_endian s.now at 8 }
    {
        Row(lists::read_be64(s, at))
    }

    // Writes the set over the 8 bytes of the output from at on, the high byte first; an output that is too short stays as it is.
    pub fn write(self, output: &mut [u8], at: usize)
        ensures { output.new ≡ put_at at (big_bytes 8 self.0) output.old }
    {
        lists::put_be(output, at, 8, self.0);
    }
}
