// Coverage maps as the vector files give them, a list of marked addresses. Made apart from `coverage::mark`, since the test programs compare what that has marked.
#![tactic(auto)]

use base::LARGEST_ROM;
use coverage::Map;
use std::io::Read;

// How a list of addresses was read: whether the file has them all and they are of ROM, and whether each is another.
#[derive(Clone, Copy)]
pub struct Marks {
    pub whole: bool,
    pub distinct: bool,
}

// Marks an address of ROM; whether it had no mark.
fn mark(map: &mut Map, a: u16) -> bool {
    if LARGEST_ROM <= a {
        return false;
    }
    let word = usize::from(a / 64);
    let bit = 1 << (a % 64);
    let is_new = map[word] & bit == 0;
    map[word] |= bit;
    is_new
}

// Marks the next address of a file.
fn read_mark(file: &mut impl Read, map: &mut Map) -> Marks {
    let mut two = [0u8; 2];
    let n = test_support::read_full(file, &mut two);
    let a = base::word(two[0], two[1]);
    Marks {
        whole: n == 2 && a < LARGEST_ROM,
        distinct: mark(map, a),
    }
}

// Marks the next addresses of a file, so many.
pub fn read_marks(file: &mut impl Read, count: u16, map: &mut Map) -> Marks {
    let mut marks = Marks {
        whole: true,
        distinct: true,
    };
    for _ in 0..count {
        let next = read_mark(file, map);
        marks.whole &= next.whole;
        marks.distinct &= next.distinct;
    }
    marks
}
