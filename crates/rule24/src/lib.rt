// Rule 24 at an address: pointers stay in their tables, and LDC in ROM.
#![tactic(auto)]

ghost use Rattle.std.specs.Prelude.{◌≡◌, ◌<◌, ℕ, Bool};
ghost use Rattle.base.specs.Formula.{Formula, decide};
ghost use Rattle.entries.specs.Fields.{said_by};
ghost use Rattle.safety.specs.Rules.{reach, pointed_read, pointed_write, code_in_rom};
ghost use Rattle.rule24.specs.Tables.{one_table};

use base::RegAddr;
use certificate::{Access, CodeAccess, Summary, Write};
use claims::EntryAt;
use entries::Certificate;

// All of from to upto lies in one nonzero table, and passes a test.
#[tactic(auto, unfolding(crate::specs::Tables::one_table))]
fn one_table<F: Fn(RegAddr) -> bool>(cert: &Certificate, from: u8, upto: u8, passes: F) -> bool
    requires { F.IsAlwaysCallable passes }
    ensures { (p : ℕ → Formula) → ((x : _) (r : Bool) → x.0 < 256 → F.post passes x r → r ≡ decide (p x.0))
        → result ≡ decide (one_table (said_by cert.now) from upto p) }
{
    let table = cert.cell(RegAddr(from)).table;
    table != 0
        && claims::all_between(
            from,
            upto,
            |x| cert.cell(RegAddr(x)).table == table && passes(RegAddr(x)),
        )
}

// Every address that the pointer's claim, plus the offset, reaches lies in one nonzero table, and passes a test.
fn reach<F: Fn(RegAddr) -> bool>(n: &EntryAt, p: RegAddr, o: u8, passes: F) -> bool
    requires { F.IsAlwaysCallable passes }
    ensures { (rule : ℕ → Formula) → ((x : _) (r : Bool) → x.0 < 256 → F.post passes x r → r ≡ decide (rule x.0))
        → result ≡ decide (reach (said_by n.now.certificate) n.now.address.0 p.0 o rule) }
{
    let claim = n.range(p);
    let Some(from) = claim.least.checked_add(o) else {
        return false;
    };
    let Some(upto) = claim.greatest.checked_add(o) else {
        return false;
    };
    n.claimed(p) && one_table(&n.certificate, from, upto, passes)
}

fn pointed_read(n: &EntryAt, x: Access) -> bool
    ensures { result ≡ decide (pointed_read (said_by n.now.certificate) n.now.address.0 x) }
{
    match x {
        Access::Pointed(p, o) => reach(n, p, o, |_| true),
        Access::Nothing | Access::Register(_) => true,
    }
}

fn pointed_write(n: &EntryAt, w: Write) -> bool
    ensures { result ≡ decide (pointed_write (said_by n.now.certificate) n.now.address.0 w) }
{
    match w {
        Write::Pointed(p, o) => reach(
            n,
            p,
            o,
            |x| rules::open_to(&n.certificate, n.entry.routine, x),
        ),
        Write::Nothing | Write::Register(_, _) | Write::RegisterAndPair(_, _, _) => true,
    }
}

// The claims on both halves of the pair, with the offset unwrapped, stay in ROM.
fn pair_in_rom(rom: u16, n: &EntryAt, p: RegAddr, up: u16, down: u16) -> bool
    ensures { result ≡ decide (code_in_rom (said_by n.now.certificate) rom n.now.address.0 (CodeAccess.Pair p up down)) }
{
    let first = n.range(p);
    let second = n.second_half_range(p);
    let low = u32::from(first.least) * 256 + u32::from(second.least) + u32::from(up);
    let high = u32::from(first.greatest) * 256 + u32::from(second.greatest) + u32::from(up);
    let down = u32::from(down);
    n.claimed(p) && (down <= low && high < u32::from(rom) + down)
}

fn code_in_rom(rom: u16, n: &EntryAt, c: CodeAccess) -> bool
    ensures { result ≡ decide (code_in_rom (said_by n.now.certificate) rom n.now.address.0 c) }
{
    match c {
        CodeAccess::Nothing => true,
        CodeAccess::Direct(t) => t.0 < rom,
        CodeAccess::Pair(p, up, down) => pair_in_rom(rom, n, p, up, down),
    }
}

// Rule 24, for a ROM of rom bytes.
#[tactic(auto, unfolding(safety::specs::Rules::rule24))]
pub fn rule24(rom: u16, n: &EntryAt, s: Summary) -> bool
    ensures { result ≡ decide (Rattle.safety.specs.Rules.rule24 (said_by n.now.certificate) rom n.now.address.0 s) }
{
    pointed_read(n, s.first)
        && (pointed_read(n, s.second) && (pointed_write(n, s.write) && code_in_rom(rom, n, s.code)))
}
