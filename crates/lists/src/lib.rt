// Total reads of bytes, of numbers in bytes and of parts, for every slice and every index; and a front or a number written over a slice.
#![tactic(auto)]

ghost use Rattle.std.specs.Prelude.{◌≡◌, ◌+◌, ◌^◌, ◌≤◌, ◌<◌, min};
ghost use Rattle.lists.specs.Lists.{part, put_front, put_at};
ghost use Rattle.lists.specs.Numbers.{byte_at, big_endian, big_bytes};

// The byte at i, and 0 past the end.
pub fn byte(s: &[u8], i: usize) -> usize
    ensures value { result ≡ byte_at s.now i }
    ensures small { result < 256 }
{
    if i < s.len() { usize::from(s[i]) } else { 0 }
}

// The byte i places after at, and 0 past the end: at + i may lie beyond the largest index.
fn byte_after(s: &[u8], at: usize, i: usize) -> usize
    ensures value { result ≡ byte_at s.now (at + i) }
    ensures small { result < 256 }
{
    if at < s.len() && i < s.len() - at {
        byte(s, at + i)
    } else {
        0
    }
}

// The number in the k bytes from at on, the high byte first; past the end stand zeros.
fn number(s: &[u8], at: usize, k: usize) -> u64
    requires { k ≤ 8 }
    ensures value { result ≡ big_endian s.now at k }
    ensures small { result < 256 ^ k }
{
    let mut x: u64 = 0;
    for i in 0..k {
        x = x * 256 + byte_after(s, at, i) as u64;
    }
    x
}

// The number in the 2 bytes from at on.
pub fn read_be16(s: &[u8], at: usize) -> u64
    ensures value { result ≡ big_endian s.now at 2 }
    ensures small { result < 65536 }
{
    number(s, at, 2)
}

// The number in the 8 bytes from at on.
pub fn read_be64(s: &[u8], at: usize) -> u64
    ensures { result ≡ big_endian s.now at 8 }
{
    number(s, at, 8)
}

// The number in the k bytes from at on; of more than 8 bytes the first 8 count.
pub fn read_be(s: &[u8], at: usize, k: usize) -> u64
    ensures { result ≡ big_endian s.now at (min k 8) }
{
    number(s, at, k.min(8))
}

// The bytes from a up to e, as far as there are any.
pub fn part_of(s: &[u8], a: usize, e: usize) -> &[u8]
    ensures { result.now ≡ part s.now a e }
{
    let from = a.min(s.len());
    let to = e.clamp(from, s.len());
    &s[from..to]
}

// Writes the front over the first bytes of the output; an output that is too short stays as it is.
pub fn put_front(front: &[u8], output: &mut [u8])
    ensures { output.new ≡ put_front front.now output.old }
{
    if front.len() <= output.len() {
        // By index: of `copy_from_slice` the compiler makes a call of `memmove`, which the archive for C would then ask for.
        for i in 0..front.len() {
            output[i] = front[i];
        }
    }
}

// Writes the number over the k bytes of the output from at on, the high byte first; an output that is too short stays as it is.
pub fn put_be(output: &mut [u8], at: usize, k: usize, number: u64)
    ensures { output.new ≡ put_at at (big_bytes k number) output.old }
{
    if output.len() < at || output.len() - at < k {
        return;
    }
    let mut x = number;
    for i in (0..k).rev() {
        output[at + i] = (x % 256) as u8;
        x /= 256;
    }
}
