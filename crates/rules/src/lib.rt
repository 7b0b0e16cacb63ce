// Rules 21 to 23 at an address: successors, forbidden instructions, direct operands. The bytes of ROM stay beside the entry, as in the formulas: only
// rules 20, 21 and 24 ask for them.
#![tactic(auto)]

ghost use Rattle.std.specs.Prelude.{◌≡◌, ◌+◌};
ghost use Rattle.base.specs.Formula.{decide, ◌&◌};
ghost use Rattle.entries.specs.Fields.{said_by};
ghost use Rattle.safety.specs.Rules.{control_allowed, flow_allowed, call_target, mapped, direct_read, direct_write, stack_load};

use base::{RegAddr, RomAddr};
use certificate::{Access, Control, Flow, StackEffect, Summary, Write};
use claims::EntryAt;
use entries::{Certificate, UNLOADED};

// EI or IDLE on side 2.
fn control_allowed(side: u8, k: Control) -> bool
    ensures { result ≡ decide (control_allowed side k) }
{
    match k {
        Control::Enable | Control::Wait => side == 1,
        Control::Nothing | Control::Disable => true,
    }
}

// RET outside 3 to 63, IRET outside 2, and what no program has.
fn flow_allowed(n: u8, f: Flow) -> bool
    ensures { result ≡ decide (flow_allowed n f) }
{
    match f {
        Flow::Step(_, _) | Flow::Call(_) => true,
        Flow::Return => 3 <= n && n <= 63,
        Flow::InterruptReturn => n == 2,
        Flow::Forbidden => false,
    }
}

// Rule 22.
#[tactic(auto, unfolding(safety::specs::Rules::rule22))]
pub fn rule22(n: &EntryAt, s: Summary) -> bool
    ensures { result ≡ decide (Rattle.safety.specs.Rules.rule22 (said_by n.now.certificate) n.now.address.0 s) }
{
    let k = n.entry.routine;
    control_allowed(n.certificate.routine(k).side, s.control) && flow_allowed(k, s.flow)
}

// A successor is an entry of the same routine, n.
#[tactic(auto, unfolding(safety::specs::Rules::successor))]
fn successor(rom: u16, cert: &Certificate, n: u8, t: RomAddr) -> bool
    ensures { result ≡ decide (Rattle.safety.specs.Rules.successor (said_by cert.now) rom n t.0) }
{
    t.0 < rom && cert.entry(t).routine == n
}

// CALL in routine n goes to the start of a greater number on the same side.
#[tactic(auto, unfolding(safety::specs::Rules::call_target))]
fn call_target(rom: u16, cert: &Certificate, n: u8, t: RomAddr) -> bool
    ensures { result ≡ decide (call_target (said_by cert.now) rom n t.0) }
{
    let callee = cert.entry(t).routine;
    let row = cert.routine(callee);
    t.0 < rom && (n < callee && (row.start == t && row.side == cert.routine(n).side))
}

// Rule 21, for a ROM of rom bytes.
#[tactic(auto, unfolding(safety::specs::Rules::rule21))]
pub fn rule21(rom: u16, n: &EntryAt, s: Summary, next: RomAddr) -> bool
    ensures { result ≡ decide (Rattle.safety.specs.Rules.rule21 (said_by n.now.certificate) rom n.now.address.0 s next.0) }
{
    let cert = &n.certificate;
    let k = n.entry.routine;
    let edges = flows::on_edges(s.flow, next, |e| successor(rom, cert, k, e.to));
    let calls = flows::on_calls(
        s.flow,
        |t| successor(rom, cert, k, next) && call_target(rom, cert, k, t),
    );
    !rule22(n, s) || (edges && calls)
}

// Routine n may write x: the class includes the side, and the routine is not above the writer limit.
#[tactic(auto, unfolding(safety::specs::Rules::writable))]
pub fn writable(cert: &Certificate, n: u8, x: RegAddr) -> bool
    ensures { result ≡ decide (Rattle.safety.specs.Rules.writable (said_by cert.now) n x.0) }
{
    let cell = cert.cell(x);
    (cell.class == cert.routine(n).side || cell.class == 3) && n <= cell.limit
}

fn direct_read(x: Access) -> bool
    ensures { result ≡ decide (direct_read x) }
{
    match x {
        Access::Register(n) => chip::mapped(n),
        Access::Nothing | Access::Pointed(_, _) => true,
    }
}

// A register is mapped, and routine n may write it.
pub fn open_to(cert: &Certificate, n: u8, x: RegAddr) -> bool
    ensures { result ≡ decide (mapped x.0 & Rattle.safety.specs.Rules.writable (said_by cert.now) n x.0) }
{
    chip::mapped(x) && writable(cert, n, x)
}

// The second half of a pair is mapped and may be written.
#[tactic(auto, using(crate::proofs::Outside::mapped_outside))]
fn second_half(cert: &Certificate, n: u8, p: RegAddr) -> bool
    ensures { result ≡ decide (mapped (p.0 + 1) & Rattle.safety.specs.Rules.writable (said_by cert.now) n (p.0 + 1)) }
{
    if p.0 == 255 {
        return false;
    }
    let x = RegAddr(p.0 + 1);
    open_to(cert, n, x)
}

fn direct_write(cert: &Certificate, n: u8, w: Write) -> bool
    ensures { result ≡ decide (direct_write (said_by cert.now) n w) }
{
    match w {
        Write::Nothing | Write::Pointed(_, _) => true,
        Write::Register(x, _) => open_to(cert, n, x),
        Write::RegisterAndPair(x, _, p) => open_to(cert, n, x)
            && (open_to(cert, n, p) && second_half(cert, n, p)),
    }
}

// `LD SP,#T` stands at depth 255.
fn stack_load(depth: u8, top: u8, k: StackEffect) -> bool
    ensures { result ≡ decide (stack_load depth top k) }
{
    match k {
        StackEffect::Load(n) => depth == UNLOADED && n == top,
        StackEffect::Same | StackEffect::Push | StackEffect::Pop => true,
    }
}

// Rule 23.
#[tactic(auto, unfolding(safety::specs::Rules::rule23))]
pub fn rule23(n: &EntryAt, s: Summary) -> bool
    ensures { result ≡ decide (Rattle.safety.specs.Rules.rule23 (said_by n.now.certificate) n.now.address.0 s) }
{
    let cert = &n.certificate;
    let e = n.entry;
    direct_read(s.first)
        && (direct_read(s.second)
            && (direct_write(cert, e.routine, s.write) && stack_load(e.depth, cert.top(), s.stack)))
}
