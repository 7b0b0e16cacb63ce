// The coverage map of a run: one bit per byte of ROM in 64 words of 64 bits, ascending from the first word's lowest bit, set where an instruction
// began.
#![tactic(auto)]

ghost use Rattle.std.specs.Prelude.{◌≡◌};
ghost use Rattle.coverage.specs.Map.{with_mark, marked_count};

use base::RomAddr;

// The words of a map, and the bits of a word.
pub const WORDS: usize = 64;

pub const WORD_BITS: u16 = 64;

// A map; all zeros marks nothing.
pub type Map = [u64; WORDS];

// Marks an address; one past the map's words marks nothing.
pub fn mark(map: &mut [u64], a: RomAddr)
    ensures { map.new ≡ with_mark map.old a.0 }
{
    let word = (a.0 / WORD_BITS) as usize;
    let bit = a.0 % WORD_BITS;
    if word < map.len() {
        map[word] |= 1 << bit;
    }
}

// How many addresses of ROM are marked.
pub fn count(map: &Map) -> u32
    ensures { result ≡ marked_count map.now }
{
    // Of a slice's words a proof knows that they fit 64 bits; by index, since of what `for word in words` gives it does not (tried).
    let words: &[u64] = map;
    let mut n = 0;
    for i in 0..WORDS {
        n += words[i].count_ones();
    }
    n
}
