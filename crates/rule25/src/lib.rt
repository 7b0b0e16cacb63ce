// Rule 25 at an address: stack depth, and the stack's room for main and the service.
#![tactic(auto)]

ghost use Rattle.std.specs.Prelude.{◌≡◌};
ghost use Rattle.base.specs.Formula.{decide, eq};
ghost use Rattle.entries.specs.Fields.{said_by};
ghost use Rattle.safety.specs.Rules.{depth_after, stack_rule, enable_rule, call_depth, stack_fits};

use base::RomAddr;
use certificate::{Control, StackEffect, Summary};
use claims::EntryAt;
use entries::{Certificate, UNLOADED};

// The depth as the instruction makes it.
fn depth_after(k: StackEffect, d: u8) -> u16
    ensures { result ≡ depth_after k d }
{
    match k {
        StackEffect::Same => u16::from(d),
        StackEffect::Push => u16::from(d) + 1,
        StackEffect::Pop => u16::from(d.saturating_sub(1)),
        StackEffect::Load(_) => 0,
    }
}

// At depth 255 PUSH, POP; POP at 0; depth after PUSH above own need.
fn stack_rule(depth: u8, need: u8, k: StackEffect) -> bool
    ensures { result ≡ decide (stack_rule depth need k) }
{
    match k {
        StackEffect::Push => depth != UNLOADED && u16::from(depth) + 1 <= u16::from(need),
        StackEffect::Pop => depth != UNLOADED && 0 < depth,
        StackEffect::Same | StackEffect::Load(_) => true,
    }
}

// At depth 255 EI.
fn enable_rule(depth: u8, k: Control) -> bool
    ensures { result ≡ decide (enable_rule depth k) }
{
    match k {
        Control::Enable => depth != UNLOADED,
        Control::Nothing | Control::Disable | Control::Wait => true,
    }
}

// At CALL, depth 255, and depth + 2 + callee's need above own need.
#[tactic(auto, unfolding(safety::specs::Rules::call_depth))]
fn call_depth(cert: &Certificate, depth: u8, need: u8, next: RomAddr, t: RomAddr) -> bool
    ensures { result ≡ decide (call_depth (said_by cert.now) depth need next.0 t.0) }
{
    let behind = cert.entry(next);
    let callee = cert.routine(cert.entry(t).routine);
    let sum = u16::from(depth) + 2 + u16::from(callee.need);
    depth != UNLOADED && (behind.depth == depth && sum <= u16::from(need))
}

// An entry's depth is d.
fn has_depth(cert: &Certificate, t: RomAddr, d: u16) -> bool
    ensures { result ≡ decide (eq ((said_by cert.now).depth t.0) d) }
{
    u16::from(cert.entry(t).depth) == d
}

// At 0100H, need(1) + 3 + need(2) above T - F.
fn stack_fits(cert: &Certificate, a: RomAddr) -> bool
    ensures { result ≡ decide (stack_fits (said_by cert.now) a.0) }
{
    let main = u16::from(cert.routine(1).need);
    let service = u16::from(cert.routine(2).need);
    let sum = main + 3 + service + u16::from(cert.floor());
    a.0 != 0x100 || sum <= u16::from(cert.top())
}

// Rule 25.
#[tactic(auto, unfolding(safety::specs::Rules::rule25))]
pub fn rule25(n: &EntryAt, s: Summary, next: RomAddr) -> bool
    ensures { result ≡ decide (Rattle.safety.specs.Rules.rule25 (said_by n.now.certificate) n.now.address.0 s next.0) }
{
    let cert = &n.certificate;
    let e = n.entry;
    let need = cert.routine(e.routine).need;
    let depth = depth_after(s.stack, e.depth);
    let edges = flows::on_edges(s.flow, next, |edge| has_depth(cert, edge.to, depth));
    let calls = flows::on_calls(s.flow, |t| call_depth(cert, e.depth, need, next, t));
    let ends = flows::on_ends(s.flow, || e.depth == 0);
    let depths = edges && (calls && (ends && stack_fits(cert, n.address)));
    stack_rule(e.depth, need, s.stack) && (enable_rule(e.depth, s.control) && depths)
}
