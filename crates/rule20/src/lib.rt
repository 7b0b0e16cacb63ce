// Rule 20: the certificate is laid out as it should be. Classes, sides and directions are numbers, and FFH marks an absent claim: the rule looks at
// bytes that need not mean any, and its formulas speak of the numbers.
#![tactic(auto)]

ghost use Rattle.std.specs.Prelude.{◌≡◌, eqb};
ghost use Rattle.base.specs.Choice.{pick};
ghost use Rattle.base.specs.Formula.{decide, le, lt, ◌&◌};
ghost use Rattle.entries.specs.Fields.{said_by};
ghost use Rattle.safety.specs.Rules.{side_at, cell_rule, claim_rule, compare_rule, empty_entry, entry_rule, address_rule, start_rule, bare_rule};
ghost use Rattle.rule20.specs.Parts.{routine_rule, bound_rule, claims_rule, cells_rule, starts_rule, addresses_rule, main_rule, service_rule, fixed_rule};

use base::{RegAddr, RomAddr};
use claims::EntryAt;
use entries::{Certificate, Claim, NO_CELL, ROUTINES, UNLOADED};

// Where RAM ends.
const RAM_END: u8 = 0xD0;

// The greatest top of the stack.
const TOP_LIMIT: u8 = 0xC0;

// The routines of main and of the service.
const MAIN: u8 = 1;

const SERVICE: u8 = 2;

// Where main starts.
const RESET: RomAddr = RomAddr(0x100);

// A row is used if it is not all zero.
#[tactic(auto, unfolding(safety::specs::Rules::used))]
pub fn used(cert: &Certificate, n: u8) -> bool
    ensures { result ≡ decide (Rattle.safety.specs.Rules.used (said_by cert.now) n) }
{
    let row = cert.routine(n);
    !(row.start.0 == 0 && row.side == 0 && row.need == 0 && row.bound == 0)
}

fn in_stack(cert: &Certificate, x: RegAddr) -> bool
    ensures { result ≡ decide (le (said_by cert.now).floor x.0 & lt x.0 (said_by cert.now).top) }
{
    cert.floor() <= x.0 && x.0 < cert.top()
}

// Class at most 3; class and table 0 for stack bytes, D5H, D9H, DFH and unmapped.
#[tactic(auto, unfolding(safety::specs::Rules::cell_rule))]
fn cell_rule(cert: &Certificate, x: RegAddr) -> bool
    ensures { result ≡ decide (cell_rule (said_by cert.now) x.0) }
{
    let row = cert.cell(x);
    let named = x.0 == base::FLAGS || x.0 == base::SP || x.0 == base::SYM;
    let reserved = in_stack(cert, x) || named || !chip::mapped(x);
    row.class <= 3 && (!reserved || row.class == 0 && row.table == 0)
}

// The side of the routine that an entry names.
fn side(n: &EntryAt) -> u8
    ensures { result ≡ side_at (said_by n.now.certificate) n.now.address.0 }
{
    n.certificate.routine(n.entry.routine).side
}

// A claimed or compared cell is RAM outside the stack, of the side's own class.
#[tactic(auto, unfolding(safety::specs::Rules::claimable))]
fn claimable(n: &EntryAt, x: RegAddr) -> bool
    ensures { result ≡ decide (Rattle.safety.specs.Rules.claimable (said_by n.now.certificate) n.now.address.0 x.0) }
{
    let cell = n.certificate.cell(x);
    x.0 < RAM_END && !in_stack(&n.certificate, x) && cell.class == side(n)
}

// Of a claim low is at most high; of an absent one the other bytes are 0.
#[tactic(auto, unfolding(safety::specs::Rules::claim_rule))]
fn claim_rule(n: &EntryAt, k: Claim) -> bool
    ensures { result ≡ decide (claim_rule (said_by n.now.certificate) n.now.address.0 k.cell.0 k.low k.high) }
{
    if k.cell.0 == NO_CELL {
        return k.low == 0 && k.high == 0;
    }
    k.low <= k.high && claimable(n, k.cell)
}

#[tactic(auto, unfolding(safety::specs::Rules::compare_rule))]
fn compare_rule(n: &EntryAt) -> bool
    ensures { result ≡ decide (compare_rule (said_by n.now.certificate) n.now.address.0) }
{
    let compare = n.entry.compare;
    if compare.cell.0 == NO_CELL {
        return compare.number == 0;
    }
    claimable(n, compare.cell)
}

// No instruction starts here: all 14 bytes zero.
#[tactic(auto, unfolding(safety::specs::Rules::empty_entry))]
fn empty_entry(n: &EntryAt) -> bool
    ensures { result ≡ decide (empty_entry (said_by n.now.certificate) n.now.address.0) }
{
    let e = n.entry;
    // Without a branch at each byte: most entries are empty.
    let bound = (e.base == 0) & (e.slope == 0) & (e.direction == 0);
    let first = (e.first.cell.0 == 0) & (e.first.low == 0) & (e.first.high == 0);
    let second = (e.second.cell.0 == 0) & (e.second.low == 0) & (e.second.high == 0);
    let compare = (e.compare.cell.0 == 0) & (e.compare.number == 0);
    (e.depth == 0) & bound & first & second & compare
}

// An entry names a used routine; depth 255 is in main only.
#[tactic(auto, unfolding(crate::specs::Parts::routine_rule))]
fn routine_rule(n: &EntryAt) -> bool
    ensures { result ≡ decide (routine_rule (said_by n.now.certificate) n.now.address.0) }
{
    let e = n.entry;
    let depth = e.depth != UNLOADED || e.routine == MAIN;
    e.routine < ROUTINES && used(&n.certificate, e.routine) && depth
}

// M only with a direction, and a direction only with a first claim; main has none of B, M, direction.
#[tactic(auto, unfolding(crate::specs::Parts::bound_rule))]
fn bound_rule(n: &EntryAt) -> bool
    ensures { result ≡ decide (bound_rule (said_by n.now.certificate) n.now.address.0) }
{
    let e = n.entry;
    let slope = e.direction != 0 || e.slope == 0;
    let claim = e.direction == 0 || e.first.cell.0 != NO_CELL;
    let none = e.base == 0 && e.slope == 0 && e.direction == 0;
    e.direction <= 2 && slope && claim && (e.routine != MAIN || none)
}

// The claims and the compare are as they should be, and the two claims distinct.
#[tactic(auto, unfolding(crate::specs::Parts::claims_rule))]
fn claims_rule(n: &EntryAt) -> bool
    ensures { result ≡ decide (claims_rule (said_by n.now.certificate) n.now.address.0) }
{
    let e = n.entry;
    let distinct = e.first.cell.0 == NO_CELL || e.first.cell != e.second.cell;
    claim_rule(n, e.first) && claim_rule(n, e.second) && distinct && compare_rule(n)
}

// A call: within the loop over the addresses it takes the registers of the empty ones.
#[inline(never)]
#[tactic(auto, using(crate::specs::Parts::entry_parts))]
fn entry_rule(n: &EntryAt) -> bool
    ensures { result ≡ decide (entry_rule (said_by n.now.certificate) n.now.address.0) }
{
    routine_rule(n) && bound_rule(n) && claims_rule(n)
}

// An address with or without an entry; none stands past ROM's end.
#[tactic(auto, unfolding(safety::specs::Rules::address_rule))]
fn address_rule(rom: u16, cert: &Certificate, a: RomAddr) -> bool
    ensures { result ≡ decide (address_rule (said_by cert.now) rom a.0) }
{
    // Made in each branch: most entries are empty, and the test of one is no call.
    if cert.entry(a).routine == 0 {
        return empty_entry(&EntryAt::new(cert, a));
    }
    a.0 < rom && entry_rule(&EntryAt::new(cert, a))
}

// The depth at the start of routine n.
fn start_depth(n: u8) -> u8
    ensures { result ≡ pick (eqb n 1) 255 0 }
{
    if n == MAIN { UNLOADED } else { 0 }
}

// Every start has its own routine's entry, depth 0 (main 255).
#[tactic(auto, unfolding(safety::specs::Rules::start_rule))]
fn start_rule(rom: u16, cert: &Certificate, n: u8) -> bool
    ensures { result ≡ decide (start_rule (said_by cert.now) rom n) }
{
    let row = cert.routine(n);
    let e = cert.entry(row.start);
    let own = e.routine == n && e.depth == start_depth(n);
    !used(cert, n) || row.start.0 < rom && own && (row.side == 1 || row.side == 2)
}

// Without claims or compare.
#[tactic(auto, unfolding(safety::specs::Rules::bare_rule))]
fn bare_rule(cert: &Certificate, a: RomAddr) -> bool
    ensures { result ≡ decide (bare_rule (said_by cert.now) a.0) }
{
    let e = cert.entry(a);
    e.first.cell.0 == NO_CELL && e.second.cell.0 == NO_CELL && e.compare.cell.0 == NO_CELL
}

fn cells_rule(cert: &Certificate) -> bool
    ensures { result ≡ decide (cells_rule (said_by cert.now)) }
{
    claims::all_between(0, u8::MAX, |x| cell_rule(cert, RegAddr(x)))
}

fn starts_rule(rom: u16, cert: &Certificate) -> bool
    ensures { result ≡ decide (starts_rule (said_by cert.now) rom) }
{
    (0..ROUTINES).all(|n| start_rule(rom, cert, n))
}

fn addresses_rule(rom: u16, cert: &Certificate) -> bool
    ensures { result ≡ decide (addresses_rule (said_by cert.now) rom) }
{
    (0..base::LARGEST_ROM).all(|a| address_rule(rom, cert, RomAddr(a)))
}

// Main starts at 0100H, side 1, bound 0; row 0 is zero.
#[tactic(auto, unfolding(crate::specs::Parts::main_rule))]
fn main_rule(cert: &Certificate) -> bool
    ensures { result ≡ decide (main_rule (said_by cert.now)) }
{
    let row = cert.routine(MAIN);
    let own = row.start == RESET && row.side == 1 && row.bound == 0;
    !used(cert, 0) && own && bare_rule(cert, row.start)
}

// The service starts at the vector, side 2.
#[tactic(auto, unfolding(crate::specs::Parts::service_rule))]
fn service_rule(image: &[u8], cert: &Certificate) -> bool
    ensures { result ≡ decide (service_rule (said_by cert.now) image.now) }
{
    let row = cert.routine(SERVICE);
    let vector = base::word(base::byte_at(image, 0), base::byte_at(image, 1));
    row.start == RomAddr(vector) && row.side == 2 && bare_rule(cert, row.start)
}

// F < T <= C0H, an entry's cost, and the rows of main and service.
#[tactic(auto, unfolding(crate::specs::Parts::fixed_rule))]
fn fixed_rule(image: &[u8], cert: &Certificate) -> bool
    ensures { result ≡ decide (fixed_rule (said_by cert.now) image.now) }
{
    let (floor, top) = (cert.floor(), cert.top());
    let cost = base::is_entry_cost(cert.entry_cost());
    floor < top && top <= TOP_LIMIT && cost && main_rule(cert) && service_rule(image, cert)
}

// Rule 20, for a ROM of rom bytes.
#[tactic(auto, using(crate::specs::Parts::rule20_parts))]
pub fn rule20(rom: u16, image: &[u8], cert: &Certificate) -> bool
    ensures { result ≡ decide (Rattle.safety.specs.Rules.rule20 (said_by cert.now) rom image.now) }
{
    fixed_rule(image, cert)
        && cells_rule(cert)
        && starts_rule(rom, cert)
        && addresses_rule(rom, cert)
}
