// Rule 27: bounds.
#![tactic(auto)]

ghost use Rattle.std.specs.Prelude.{◌≡◌, ℕ, ◌+◌, leb};
ghost use Rattle.base.specs.Choice.{pick};
ghost use Rattle.base.specs.Formula.{decide};
ghost use Rattle.entries.specs.Fields.{said_by};
ghost use Rattle.safety.specs.Rules.{same_first, bound_after, bound_after_call, opening_cost, row_rule, plain_edge};
ghost use Rattle.flows.specs.Edges.{edge_of};
ghost use Rattle.rule27.specs.Paid.{after_of, along_of, first_values_of};

use base::RomAddr;
use certificate::{NewValue, Range, Summary, Write};
use claims::{EntryAt, Values};
use entries::{Certificate, NO_CELL};
use flows::Edge;

// What comes after an instruction: nothing; a callee's bound, and a successor's worst or its bound for the same value of the first claimed cell; a
// successor's bound for a value one more, or one less. An enum, and no closure, which `after_edge` could not hand out.
#[derive(Clone, Copy)]
enum After<'a> {
    Nothing,
    Worst(u16, EntryAt<'a>),
    Along(u16, EntryAt<'a>),
    OneMore(EntryAt<'a>),
    OneLess(EntryAt<'a>),
}

// The cycles that come after, where the first claimed cell holds c.
fn after_value(after: &After, c: u8) -> u64
    ensures { result ≡ after_of after.now c }
{
    match after {
        After::Nothing => 0,
        After::Worst(n, t) => u64::from(*n) + u64::from(t.worst()),
        After::Along(n, t) => u64::from(*n) + u64::from(t.bound_at(c)),
        After::OneMore(t) if c < 255 => u64::from(t.bound_at(c + 1)),
        After::OneLess(t) if 0 < c => u64::from(t.bound_at(c - 1)),
        After::OneMore(t) | After::OneLess(t) => u64::from(t.worst()),
    }
}

// The cost and what comes after are within the bound.
fn covers(bound: u32, cost: u8, after: u64) -> bool
    ensures { result ≡ leb (cost + after) bound }
{
    match u64::from(bound).checked_sub(u64::from(cost)) {
        Some(left) => after <= left,
        None => false,
    }
}

// The values of the first claimed cell that are left on an edge; without a first claim there is one case.
fn first_values(n: &EntryAt, e: Edge) -> Values
    ensures { result ≡ first_values_of (said_by n.now.certificate) n.now.address.0 (edge_of e) }
{
    let cell = n.entry.first.cell;
    if cell.0 == NO_CELL {
        return Values {
            range: Range {
                least: 0,
                greatest: 0,
            },
            narrowed: None,
        };
    }
    n.values_left(e, cell)
}

// For each c left on the edge: cost and what comes after within the entry's bound. Main is exempt.
#[tactic(auto, using(crate::proofs::Laws::paid_all), unfolding(safety::specs::Rules::paid))]
fn paid(n: &EntryAt, e: Edge, cost: u8, after: &After) -> bool
    ensures { result ≡ decide (Rattle.safety.specs.Rules.paid (said_by n.now.certificate) n.now.address.0 (edge_of e) cost (after_of after.now)) }
{
    n.entry.routine == 1
        || first_values(n, e).all(|c| covers(n.bound_at(c), cost, after_value(after, c)))
}

// Both have the same first cell.
#[tactic(auto, unfolding(safety::specs::Rules::same_first))]
fn same_first(n: &EntryAt, t: &EntryAt) -> bool
    ensures { t.now.certificate ≡ n.now.certificate → result ≡ same_first (said_by n.now.certificate) n.now.address.0 t.now.address.0 }
{
    t.entry.first.cell == n.entry.first.cell && n.entry.first.cell.0 != NO_CELL
}

// c goes along if the cell is unwritten, or stepped by INC or DEC; else the successor's worst counts.
fn along<'a>(c: Option<NewValue>, t: &EntryAt<'a>) -> After<'a>
    ensures { result ≡ along_of c t.now }
{
    match c {
        None => After::Along(0, *t),
        Some(NewValue::OneMore) => After::OneMore(*t),
        Some(NewValue::OneLess) => After::OneLess(*t),
        Some(NewValue::Number(_) | NewValue::Within(_) | NewValue::CopyOf(_) | NewValue::Unknown) =>
            After::Worst(0, *t),
    }
}

// What comes after an edge to an address.
#[tactic(auto, using(crate::proofs::Laws::after_worst, crate::proofs::Laws::after_along))]
fn after_edge<'a>(n: &EntryAt<'a>, w: Write, to: RomAddr) -> After<'a>
    ensures { (c : ℕ) → after_of result c ≡ bound_after (said_by n.now.certificate) n.now.address.0 w to.0 c }
{
    let t = EntryAt::new(&n.certificate, to);
    if !same_first(n, &t) {
        return After::Worst(0, t);
    }
    along(n.change_of(w, n.entry.first.cell), &t)
}

fn after_callee<'a>(kept: bool, bound: u16, t: &EntryAt<'a>) -> After<'a>
    ensures { result ≡ pick kept (After.Along bound t.now) (After.Worst bound t.now) }
{
    if kept {
        After::Along(bound, *t)
    } else {
        After::Worst(bound, *t)
    }
}

// The callee's bound, and behind CALL c goes along if no callee can write the cell.
#[tactic(auto, using(crate::proofs::Laws::after_call))]
fn after_call<'a>(n: &EntryAt<'a>, next: RomAddr, t: RomAddr) -> After<'a>
    ensures { (c : ℕ) → after_of result c ≡ bound_after_call (said_by n.now.certificate) n.now.address.0 next.0 t.0 c }
{
    let behind = EntryAt::new(&n.certificate, next);
    let callee = n.certificate.entry(t).routine;
    let limit = n.certificate.cell(n.entry.first.cell).limit;
    let kept = same_first(n, &behind) && limit < callee;
    after_callee(kept, n.certificate.routine(callee).bound, &behind)
}

#[tactic(auto, using(crate::proofs::Laws::paid_same), unfolding(safety::specs::Rules::edge27))]
fn edge27(n: &EntryAt, s: Summary, cost: u8, e: Edge) -> bool
    ensures { result ≡ decide (Rattle.safety.specs.Rules.edge27 (said_by n.now.certificate) n.now.address.0 s cost (edge_of e)) }
{
    !n.feasible(e) || paid(n, e, cost, &after_edge(n, s.write, e.to))
}

#[tactic(auto, using(crate::proofs::Laws::paid_same))]
fn call27(n: &EntryAt, cost: u8, next: RomAddr, t: RomAddr) -> bool
    ensures { result ≡ decide (Rattle.safety.specs.Rules.paid (said_by n.now.certificate) n.now.address.0 (plain_edge next.0) cost (bound_after_call (said_by n.now.certificate) n.now.address.0 next.0 t.0)) }
{
    paid(n, Edge::plain(next), cost, &after_call(n, next, t))
}

fn return27(n: &EntryAt, cost: u8) -> bool
    ensures { result ≡ decide (Rattle.safety.specs.Rules.paid (said_by n.now.certificate) n.now.address.0 (plain_edge 0) cost (λ c. 0)) }
{
    paid(n, Edge::plain(RomAddr(0)), cost, &After::Nothing)
}

// The cycles that a routine has spent when its first instruction begins.
fn opening_cost(cert: &Certificate, n: u8) -> u8
    ensures { result ≡ opening_cost (said_by cert.now) n }
{
    if n == 2 { cert.entry_cost() } else { 0 }
}

// A row's bound is at least its start's worst and what opening costs.
#[tactic(auto, unfolding(safety::specs::Rules::row_rule))]
fn row_rule(n: &EntryAt) -> bool
    ensures { result ≡ decide (row_rule (said_by n.now.certificate) n.now.address.0) }
{
    let row = n.certificate.routine(n.entry.routine);
    let opening = opening_cost(&n.certificate, n.entry.routine);
    let enough = covers(u32::from(row.bound), opening, u64::from(n.worst()));
    n.entry.routine == 1 || (row.start != n.address || enough)
}

// Rule 27.
#[tactic(auto, unfolding(safety::specs::Rules::rule27))]
pub fn rule27(n: &EntryAt, s: Summary, cost: u8, next: RomAddr) -> bool
    ensures { result ≡ decide (Rattle.safety.specs.Rules.rule27 (said_by n.now.certificate) n.now.address.0 s cost next.0) }
{
    let edges = flows::on_edges(s.flow, next, |e| edge27(n, s, cost, e));
    let calls = flows::on_calls(s.flow, |t| call27(n, cost, next, t));
    let ends = flows::on_ends(s.flow, || return27(n, cost));
    edges && (calls && (ends && row_rule(n)))
}
