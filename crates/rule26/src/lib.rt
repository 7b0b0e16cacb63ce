// Rule 26: claims and compares follow.
#![tactic(auto)]

ghost use Rattle.std.specs.Prelude.{◌≡◌, ℕ, true};
ghost use Rattle.base.specs.Formula.{decide, le, ◌&◌};
ghost use Rattle.entries.specs.Fields.{said_by, entry_of};
ghost use Rattle.safety.specs.Rules.{plain_edge, change_of, follows, claim_follows, claims_follow, is_unchanged, flags_follow};
ghost use Rattle.safety.specs.Rules.{compare_follows, survives};
ghost use Rattle.flows.specs.Edges.{edge_of};
ghost use Rattle.claims.specs.Values.{change_in};
ghost use Rattle.rule26.specs.Follows.{one_more_follows, one_less_follows};

use base::{RegAddr, RomAddr};
use certificate::{FlagEffect, NewValue, Range, Summary, Write};
use claims::EntryAt;
use entries::{Claim, Compare, Entry, NO_CELL};
use flows::Edge;

// The claim holds every byte.
fn is_full(k: Claim) -> bool
    ensures { result ≡ decide (Rattle.safety.specs.Rules.full_range k.low k.high) }
{
    k.low == 0 && 255 <= k.high
}

// The claim follows from one more than low to high.
fn one_more_follows(low: u8, high: u8, k: Claim) -> bool
    ensures { result ≡ decide (one_more_follows low high k.low k.high) }
{
    let (low, high) = (u16::from(low), u16::from(high));
    let stepped = u16::from(k.low) <= low + 1 && high + 1 <= u16::from(k.high);
    (!(high < 255) || stepped) && (!(255 <= high) || is_full(k))
}

// The claim follows from one less than low to high.
fn one_less_follows(low: u8, high: u8, k: Claim) -> bool
    ensures { result ≡ decide (one_less_follows low high k.low k.high) }
{
    let stepped = k.low <= low.saturating_sub(1) && high.saturating_sub(1) <= k.high;
    (!(0 < low) || stepped) && (low != 0 || is_full(k))
}

// The claim holds a range.
fn holds(k: Claim, q: Range) -> bool
    ensures { result ≡ decide (le k.low q.least & le q.greatest k.high) }
{
    k.low <= q.least && q.greatest <= k.high
}

// The claim follows from a value that is stored.
fn value_follows(n: &EntryAt, v: NewValue, k: Claim) -> bool
    ensures { result ≡ decide (follows (said_by n.now.certificate) n.now.address.0 (plain_edge 0) (Rattle.safety.specs.Rules.Change.changed v) k.cell.0 k.low k.high) }
{
    let own = n.range(k.cell);
    match v {
        NewValue::Number(x) => k.low <= x && x <= k.high,
        NewValue::OneMore => one_more_follows(own.least, own.greatest, k),
        NewValue::OneLess => one_less_follows(own.least, own.greatest, k),
        NewValue::Within(q) => holds(k, q),
        NewValue::CopyOf(y) => holds(k, n.range(y)),
        NewValue::Unknown => is_full(k),
    }
}

fn change_follows(n: &EntryAt, e: Edge, c: Option<NewValue>, k: Claim) -> bool
    ensures { result ≡ decide (follows (said_by n.now.certificate) n.now.address.0 (edge_of e) (change_in c) k.cell.0 k.low k.high) }
{
    match c {
        None => n.values_left(e, k.cell).all(|v| k.low <= v && v <= k.high),
        Some(v) => value_follows(n, v, k),
    }
}

// A claim at a successor follows.
#[tactic(auto, unfolding(safety::specs::Rules::claim_follows))]
fn claim_follows(n: &EntryAt, e: Edge, w: Write, k: Claim) -> bool
    ensures { result ≡ decide (claim_follows (said_by n.now.certificate) n.now.address.0 (edge_of e) w k.cell.0 k.low k.high) }
{
    k.cell.0 == NO_CELL || change_follows(n, e, n.change_of(w, k.cell), k)
}

// The claims at a successor, whose entry is t, follow.
fn claims_follow(n: &EntryAt, e: Edge, w: Write, t: Entry) -> bool
    ensures { t ≡ entry_of (said_by n.now.certificate) e.to.0 → result ≡ decide (claims_follow (said_by n.now.certificate) n.now.address.0 (edge_of e) w) }
{
    claim_follows(n, e, w, t.first) && claim_follows(n, e, w, t.second)
}

// The write cannot change cell x.
fn unchanged_by(n: &EntryAt, w: Write, x: RegAddr) -> bool
    ensures { result ≡ decide (is_unchanged (change_of (said_by n.now.certificate) n.now.address.0 w x.0)) }
{
    n.change_of(w, x).is_none()
}

// The compare of entry t follows from its own CP, or from the same compare over an instruction that names no flag and cannot write its cell.
fn flags_follow(n: &EntryAt, w: Write, f: FlagEffect, t: Entry) -> bool
    ensures { (b : ℕ) → t ≡ entry_of (said_by n.now.certificate) b → result ≡ decide (flags_follow (said_by n.now.certificate) n.now.address.0 w f b) }
{
    match f {
        FlagEffect::Kept => t.compare == n.entry.compare && unchanged_by(n, w, t.compare.cell),
        FlagEffect::Changed => false,
        FlagEffect::Compared(cell, number) => t.compare == Compare { cell, number },
    }
}

#[tactic(auto, unfolding(safety::specs::Rules::compare_follows))]
fn compare_follows(n: &EntryAt, w: Write, f: FlagEffect, t: Entry) -> bool
    ensures { (b : ℕ) → t ≡ entry_of (said_by n.now.certificate) b → result ≡ decide (compare_follows (said_by n.now.certificate) n.now.address.0 w f b) }
{
    t.compare.cell.0 == NO_CELL || flags_follow(n, w, f, t)
}

// What holds at the target of an edge follows.
#[tactic(auto, unfolding(safety::specs::Rules::edge26))]
fn edge26(n: &EntryAt, s: Summary, e: Edge) -> bool
    ensures { result ≡ decide (Rattle.safety.specs.Rules.edge26 (said_by n.now.certificate) n.now.address.0 s (edge_of e)) }
{
    if !n.feasible(e) {
        return true;
    }
    let t = n.certificate.entry(e.to);
    claims_follow(n, e, s.write, t) && compare_follows(n, s.write, s.flags, t)
}

// After CALL a claim survives if the callee's number k exceeds the writer limit.
#[tactic(auto, unfolding(safety::specs::Rules::survives))]
fn claim_survives(n: &EntryAt, k: u8, c: Claim) -> bool
    ensures { result ≡ decide (survives (said_by n.now.certificate) n.now.address.0 k c.cell.0 c.low c.high) }
{
    let limit = n.certificate.cell(c.cell).limit;
    let kept = holds(c, n.range(c.cell));
    let follows = (!(limit < k) || kept) && (!(k <= limit) || is_full(c));
    c.cell.0 == NO_CELL || follows
}

// What holds behind CALL, and at the start that it goes to, follows; g is its flag effect.
#[tactic(auto, unfolding(safety::specs::Rules::call26))]
fn call26(n: &EntryAt, g: FlagEffect, next: RomAddr, t: RomAddr) -> bool
    ensures { result ≡ decide (Rattle.safety.specs.Rules.call26 (said_by n.now.certificate) n.now.address.0 g next.0 t.0) }
{
    let to = n.certificate.entry(t);
    let behind = n.certificate.entry(next);
    let first = claim_survives(n, to.routine, behind.first);
    let second = claim_survives(n, to.routine, behind.second);
    let claims = claims_follow(n, Edge::plain(t), Write::Nothing, to);
    let compare = compare_follows(n, Write::Nothing, g, to);
    first && (second && (behind.compare.cell.0 == NO_CELL && (claims && compare)))
}

// Rule 26.
#[tactic(auto, unfolding(safety::specs::Rules::rule26))]
pub fn rule26(n: &EntryAt, s: Summary, next: RomAddr) -> bool
    ensures { result ≡ decide (Rattle.safety.specs.Rules.rule26 (said_by n.now.certificate) n.now.address.0 s next.0) }
{
    flows::on_edges(s.flow, next, |e| edge26(n, s, e))
        && flows::on_calls(s.flow, |t| call26(n, s.flags, next, t))
}
