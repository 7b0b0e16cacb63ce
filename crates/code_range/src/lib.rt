// Request 14: the range of the ROM bytes that LDC, LDCI and LDCD can load.
#![tactic(auto)]

ghost use Rattle.std.specs.Prelude.{◌≡◌, ◌+◌, ◌-◌, ◌*◌};
ghost use Rattle.entries.specs.Fields.{said_by};
ghost use Rattle.safety.specs.CodeRange.{widened, no_byte, rows_from};

use base::RegAddr;
use certificate::{CodeAccess, Range};
use claims::EntryAt;

// The range of no byte.
const NO_BYTE: Range = Range {
    least: 255,
    greatest: 0,
};

// The range that holds q and the bytes of a row.
#[tactic(auto, using(crate::proofs::Laws::widened_next), unfolding(safety::specs::CodeRange::widened))]
fn row_range(row: &[u8], q: Range) -> Range
    ensures { result ≡ widened q row.now }
{
    let Range {
        mut least,
        mut greatest,
    } = q;
    for b in row {
        least = least.min(*b);
        greatest = greatest.max(*b);
    }
    Range { least, greatest }
}

// The range of the bytes of k rows of n bytes, 256 apart, the first from address t on; past the image stands none.
#[tactic(auto, using(crate::proofs::Laws::widened_row), unfolding(safety::specs::CodeRange::widened, safety::specs::CodeRange::rows_from))]
fn rows_range(image: &[u8], k: u16, t: u32, n: u16) -> Range
    ensures { result ≡ widened no_byte (rows_from image.now k t n) }
{
    let width = n as usize;
    let mut q = NO_BYTE;
    let mut at = t as usize;
    // The place is carried: with `step_by` its end would have to be told.
    for _ in 0..k {
        q = row_range(entries::piece(image, at, width), q);
        at += 256;
    }
    q
}

// How many values a range holds.
fn value_count(q: Range) -> u16
    ensures { result ≡ q.greatest + 1 - q.least }
{
    (u16::from(q.greatest) + 1).saturating_sub(u16::from(q.least))
}

// The lowest address that a pair reaches whose halves are at least upper and lower.
fn lowest_address(upper: u8, lower: u8, up: u16, down: u16) -> u32
    ensures { result ≡ upper * 256 + lower + up - down }
{
    (u32::from(upper) * 256 + u32::from(lower) + u32::from(up)).saturating_sub(u32::from(down))
}

// The range of what a pair reaches by the claims on both of its halves.
#[tactic(auto, unfolding(safety::specs::CodeRange::load_range))]
fn pair_range(image: &[u8], n: &EntryAt, p: RegAddr, up: u16, down: u16) -> Range
    ensures { result ≡ Rattle.safety.specs.CodeRange.load_range (said_by n.now.certificate) image.now n.now.address.0 (CodeAccess.Pair p up down) }
{
    let first = n.range(p);
    let second = n.second_half_range(p);
    let from = lowest_address(first.least, second.least, up, down);
    rows_range(image, value_count(first), from, value_count(second))
}

// The range of the bytes that the instruction at an entry's address can load.
#[tactic(auto, unfolding(safety::specs::CodeRange::load_range, safety::specs::CodeRange::widened))]
pub fn load_range(image: &[u8], n: &EntryAt, c: CodeAccess) -> Range
    ensures { result ≡ Rattle.safety.specs.CodeRange.load_range (said_by n.now.certificate) image.now n.now.address.0 c }
{
    match c {
        CodeAccess::Nothing => NO_BYTE,
        CodeAccess::Direct(t) => rows_range(image, 1, u32::from(t.0), 1),
        CodeAccess::Pair(p, up, down) => pair_range(image, n, p, up, down),
    }
}
