// The certificate's parts and fields. Each read is total: past the end a byte counts as 0, as in the definitions. Routines, depths, cells, sides, classes
// and directions are bytes as they stand, also where rule 20 refuses them: its formulas, and those of `Layout`, speak of the numbers.
#![tactic(auto)]

ghost use Rattle.std.specs.Prelude.{◌≡◌, take, drop, ◌+◌, ◌<◌, ◌≤◌};
ghost use Rattle.certificate.specs.Layout.{word, entry_part, cell_part, row_part, certificate_of};
ghost use Rattle.base.specs.Lengths.{short_certificate_length};
ghost use Rattle.entries.specs.Fields.{said_by, claim_of, entry_from, entry_of, cell_row_of, row_of};

use base::{RegAddr, RomAddr, byte_at};

// The bytes of an entry; the entries stand first.
const ENTRY_LENGTH: usize = 14;

// Where the registers' rows stand.
const CELLS_AT: usize = 0xE000;

// The bytes of a register's row.
const CELL_LENGTH: usize = 3;

// Where the routines' rows stand.
const ROWS_AT: usize = 0xE300;

// The bytes of a routine's row.
const ROW_LENGTH: usize = 6;

// Where the stack's floor and top stand.
const FLOOR_AT: usize = 0xE480;

const TOP_AT: usize = 0xE481;

// Where the cycles of an interrupt entry stand, the last byte of a long certificate.
const ENTRY_COST_AT: usize = 0xE482;

// How many routines have rows.
pub const ROUTINES: u8 = 64;

// The cell of a claim or compare that is none.
pub const NO_CELL: u8 = 255;

// The depth where SP is not yet loaded.
pub const UNLOADED: u8 = 255;

// A lent certificate.
#[derive(Clone, Copy)]
pub struct Certificate<'a> {
    pub bytes: &'a [u8],
}

// That a cell holds low to high; cell FFH is no claim.
#[derive(Clone, Copy)]
pub struct Claim {
    pub cell: RegAddr,
    pub low: u8,
    pub high: u8,
}

// That the flags are those of `CP cell,#number`; cell FFH is no compare.
#[derive(Clone, Copy, Debug, PartialEq, Eq)]
pub struct Compare {
    pub cell: RegAddr,
    pub number: u8,
}

// The entry of a ROM address.
#[derive(Clone, Copy)]
pub struct Entry {
    pub routine: u8,
    pub depth: u8,
    pub base: u16,
    pub slope: u8,
    pub direction: u8,
    pub first: Claim,
    pub second: Claim,
    pub compare: Compare,
}

// The row of a register.
#[derive(Clone, Copy)]
pub struct CellRow {
    pub class: u8,
    pub limit: u8,
    pub table: u8,
}

// The row of a routine.
#[derive(Clone, Copy)]
pub struct RoutineRow {
    pub start: RomAddr,
    pub side: u8,
    pub need: u8,
    pub bound: u16,
}

// The number at i, high byte first.
fn word_at(s: &[u8], i: usize) -> u16
    requires { i < 65536 }
    ensures { result ≡ word s.now i }
{
    base::word(byte_at(s, i), byte_at(s, i + 1))
}

// The w bytes from i on, or as many as there are.
pub fn piece(b: &[u8], i: usize, w: usize) -> &[u8]
    ensures { result.now ≡ take w (drop i b.now) }
{
    let n = b.len();
    if n <= i {
        return &b[0..0];
    }
    if n - i < w {
        return &b[i..];
    }
    let e = i + w;
    &b[i..e]
}

// The same of bytes that every certificate has. Where the compiler knows that there are so many, the part's length is known too.
fn part_at(cert: &[u8], i: usize, w: usize) -> &[u8]
    requires { i + w ≤ short_certificate_length }
    ensures { result.now ≡ take w (drop i cert.now) }
{
    if cert.len() < base::SHORT_CERTIFICATE_LENGTH {
        return piece(cert, i, w);
    }
    let e = i + w;
    &cert[i..e]
}

// The entry of a ROM address, as that part of the certificate; past the ROM an empty part.
pub fn entry_part(cert: &[u8], a: RomAddr) -> &[u8]
    ensures part { result.now ≡ entry_part cert.now a.0 }
    ensures fields { entry_from result.now ≡ entry_of (certificate_of cert.now) a.0 }
{
    if a.0 < base::LARGEST_ROM {
        return part_at(cert, ENTRY_LENGTH * usize::from(a.0), ENTRY_LENGTH);
    }
    &cert[0..0]
}

// The fields of an entry's part.
#[tactic(auto, unfolding(crate::specs::Fields::entry_from))]
pub fn entry_of(part: &[u8]) -> Entry
    ensures { result ≡ entry_from part.now }
{
    Entry {
        routine: byte_at(part, 0),
        depth: byte_at(part, 1),
        base: word_at(part, 2),
        slope: byte_at(part, 4),
        direction: byte_at(part, 5),
        first: claim_at(part, 6),
        second: claim_at(part, 9),
        compare: Compare {
            cell: RegAddr(byte_at(part, 12)),
            number: byte_at(part, 13),
        },
    }
}

// The claim at i of an entry's part.
fn claim_at(e: &[u8], i: usize) -> Claim
    requires { i < 65536 }
    ensures { result ≡ claim_of e.now i }
{
    Claim {
        cell: RegAddr(byte_at(e, i)),
        low: byte_at(e, i + 1),
        high: byte_at(e, i + 2),
    }
}

// The cycles of an interrupt entry.
pub fn entry_cost(cert: &[u8]) -> u8
    ensures { result ≡ (certificate_of cert.now).entry_cost }
{
    Certificate { bytes: cert }.entry_cost()
}

impl<'a> Certificate<'a> {
    // The fields of the entry of a ROM address, read from its part. Within its caller: who asks for one field reads no more.
    #[inline(always)]
    pub fn entry(&self, a: RomAddr) -> Entry
        ensures { result ≡ entry_of (said_by self.now) a.0 }
    {
        entry_of(entry_part(self.bytes, a))
    }

    // The row of a register, as that part of the certificate.
    pub fn cell_part(&self, x: RegAddr) -> &'a [u8]
        ensures { result.now ≡ cell_part self.now.bytes.now x.0 }
    {
        part_at(
            self.bytes,
            CELLS_AT + CELL_LENGTH * usize::from(x.0),
            CELL_LENGTH,
        )
    }

    // The row of a routine, as that part of the certificate; past the last an empty part.
    pub fn row_part(&self, n: u8) -> &'a [u8]
        ensures { result.now ≡ row_part self.now.bytes.now n }
    {
        if n < ROUTINES {
            return part_at(
                self.bytes,
                ROWS_AT + ROW_LENGTH * usize::from(n),
                ROW_LENGTH,
            );
        }
        &self.bytes[0..0]
    }

    // The row of a register, field by field.
    #[tactic(auto, unfolding(certificate::specs::Layout::certificate_of, certificate::specs::Layout::certificate_from))]
    pub fn cell(&self, x: RegAddr) -> CellRow
        ensures { result ≡ cell_row_of (said_by self.now) x.0 }
    {
        let row = self.cell_part(x);
        CellRow {
            class: byte_at(row, 0),
            limit: byte_at(row, 1),
            table: byte_at(row, 2),
        }
    }

    // The row of a routine, field by field.
    #[tactic(auto, unfolding(certificate::specs::Layout::certificate_of, certificate::specs::Layout::certificate_from))]
    pub fn routine(&self, n: u8) -> RoutineRow
        ensures { result ≡ row_of (said_by self.now) n }
    {
        let row = self.row_part(n);
        RoutineRow {
            start: RomAddr(word_at(row, 0)),
            side: byte_at(row, 2),
            need: byte_at(row, 3),
            bound: word_at(row, 4),
        }
    }

    // The stack is floor to top - 1.
    #[tactic(auto, unfolding(certificate::specs::Layout::certificate_of, certificate::specs::Layout::certificate_from))]
    pub fn floor(&self) -> u8
        ensures { result ≡ (said_by self.now).floor }
    {
        byte_at(self.bytes, FLOOR_AT)
    }

    #[tactic(auto, unfolding(certificate::specs::Layout::certificate_of, certificate::specs::Layout::certificate_from))]
    pub fn top(&self) -> u8
        ensures { result ≡ (said_by self.now).top }
    {
        byte_at(self.bytes, TOP_AT)
    }

    // The cycles of an interrupt entry.
    #[tactic(auto, unfolding(certificate::specs::Layout::certificate_of, certificate::specs::Layout::certificate_from))]
    pub fn entry_cost(&self) -> u8
        ensures { result ≡ (said_by self.now).entry_cost }
    {
        byte_at(self.bytes, ENTRY_COST_AT)
    }
}
