// Ranges, values left on an edge, changes of cells and bounds: what several rules read of an entry. A contract over an entry n speaks of every
// address, of any certificate, whose entry is n; the rules ask the methods of `EntryAt`, an entry at its address.
#![tactic(auto)]

ghost use Rattle.std.specs.Prelude.{◌≡◌, ◌<◌, ◌+◌, ◌||◌, eqb, ℕ, Bool};
ghost use Rattle.base.specs.Formula.{Formula, decide};
ghost use Rattle.certificate.specs.Layout.{Certificate};
ghost use Rattle.certificate.specs.Summaries.{range};
ghost use Rattle.entries.specs.Fields.{said_by, entry_of};
ghost use Rattle.safety.specs.Rules.{low, high, bound_at, worst, change_of};
ghost use Rattle.flows.specs.Edges.{edge_of};
ghost use Rattle.claims.specs.Bounds.{distance_from};
ghost use Rattle.claims.specs.Values.{among, all_between, all_among, values_of, feasible_for, change_in, pointed_at};

use base::{RegAddr, RomAddr};
use certificate::{NewValue, Range, Write};
use entries::{Entry, NO_CELL};
use flows::Edge;

// An entry of a certificate at its address.
#[derive(Clone, Copy)]
pub struct EntryAt<'a> {
    pub certificate: entries::Certificate<'a>,
    pub address: RomAddr,
    pub entry: Entry,
    pub ghost told: { entry ≡ entry_of (said_by certificate) address.0 },
}

// A comparison of a value with a number, and whether its condition must hold.
#[derive(Clone, Copy)]
pub struct Comparison {
    pub condition: u8,
    pub outcome: bool,
    pub number: u8,
}

// The values of a cell that are left on an edge: those of a range, and where the cell is narrowed those that meet a comparison.
#[derive(Clone, Copy)]
pub struct Values {
    pub range: Range,
    pub narrowed: Option<Comparison>,
}

// Whether every number from low to high passes a test.
pub fn all_between<F: Fn(u8) -> bool>(low: u8, high: u8, passes: F) -> bool
    requires { F.IsAlwaysCallable passes }
    ensures { (p : ℕ → Formula) → ((v : ℕ) (r : Bool) → v < 256 → F.post passes v r → r ≡ decide (p v)) → result ≡ decide (all_between low high p) }
{
    for v in low..=high {
        if !passes(v) {
            return false;
        }
    }
    true
}

impl Comparison {
    // Value v meets it. C, NC, Z, NZ, ULE and UGT are unsigned; any other condition says nothing.
    #[tactic(auto, using(base::specs::ChoiceLaws::choose_miss), unfolding(safety::specs::Rules::meets))]
    fn met_by(self, v: u8) -> bool
        ensures { result ≡ decide (Rattle.safety.specs.Rules.meets self.condition self.outcome v self.number) }
    {
        let k = self.number;
        match self.condition {
            7 => (v < k) == self.outcome,
            15 => (k <= v) == self.outcome,
            6 => (v == k) == self.outcome,
            14 => (v != k) == self.outcome,
            3 => (v <= k) == self.outcome,
            11 => (k < v) == self.outcome,
            _ => true,
        }
    }
}

impl Values {
    // v is one of the values.
    #[tactic(auto, unfolding(crate::specs::Values::among))]
    pub fn has(self, v: u8) -> bool
        ensures { result ≡ decide (among self v) }
    {
        let met = match self.narrowed {
            Some(comparison) => comparison.met_by(v),
            None => true,
        };
        self.range.least <= v && (v <= self.range.greatest && met)
    }

    // Every one of the values passes a test.
    pub fn all<F: Fn(u8) -> bool>(self, passes: F) -> bool
        requires { F.IsAlwaysCallable passes }
        ensures { (p : ℕ → Formula) → ((v : ℕ) (r : Bool) → v < 256 → F.post passes v r → r ≡ decide (p v)) → result ≡ decide (all_among self p) }
    {
        all_between(
            self.range.least,
            self.range.greatest,
            |v| !self.has(v) || passes(v),
        )
    }
}

// The range of a cell by an entry: its claim's, else 0 to 255. Of FFH, which marks no claim, it says nothing.
pub fn low_in(n: Entry, x: RegAddr) -> u8
    ensures { (C : Certificate) (a : ℕ) → n ≡ entry_of C a → result ≡ Rattle.safety.specs.Rules.low C a x.0 }
{
    range_of(n, u16::from(x.0)).least
}

pub fn high_in(n: Entry, x: RegAddr) -> u8
    ensures { (C : Certificate) (a : ℕ) → n ≡ entry_of C a → result ≡ Rattle.safety.specs.Rules.high C a x.0 }
{
    range_of(n, u16::from(x.0)).greatest
}

// The range of the cell behind p, the low half of a pair; behind FFH stands none, and 0 to 255 counts.
pub fn second_half_range(n: Entry, p: RegAddr) -> Range
    ensures { (C : Certificate) (a : ℕ) → n ≡ entry_of C a → result ≡ range (Rattle.safety.specs.Rules.low C a (p.0 + 1)) (Rattle.safety.specs.Rules.high C a (p.0 + 1)) }
{
    range_of(n, u16::from(p.0) + 1)
}

// The range of the cell of a number, which may be one past the last.
#[tactic(auto, using(crate::proofs::Laws::low_by, crate::proofs::Laws::high_by), unfolding(crate::proofs::Laws::low_in, crate::proofs::Laws::high_in))]
fn range_of(n: Entry, x: u16) -> Range
    ensures { (C : Certificate) (a : ℕ) → n ≡ entry_of C a → result ≡ range (low C a x) (high C a x) }
{
    let Entry { first, second, .. } = n;
    if x == u16::from(first.cell.0) {
        return Range {
            least: first.low,
            greatest: first.high,
        };
    }
    if x == u16::from(second.cell.0) {
        return Range {
            least: second.low,
            greatest: second.high,
        };
    }
    Range {
        least: 0,
        greatest: 255,
    }
}

#[tactic(auto, unfolding(safety::specs::Rules::claimed))]
pub fn claimed_in(n: Entry, x: RegAddr) -> bool
    ensures { (C : Certificate) (a : ℕ) → n ≡ entry_of C a → result ≡ decide (Rattle.safety.specs.Rules.claimed C a x.0) }
{
    x.0 != NO_CELL && (x == n.first.cell || x == n.second.cell)
}

// The cell is compared, and claimed.
#[tactic(auto, unfolding(safety::specs::Rules::narrowed))]
fn narrowed(n: Entry, x: RegAddr) -> bool
    ensures { (C : Certificate) (a : ℕ) → n ≡ entry_of C a → result ≡ decide (Rattle.safety.specs.Rules.narrowed C a x.0) }
{
    x == n.compare.cell && claimed_in(n, x)
}

// The values of cell x that are left on an edge from entry n.
pub fn values_left(n: Entry, e: Edge, x: RegAddr) -> Values
    ensures { (C : Certificate) (a : ℕ) → n ≡ entry_of C a → result ≡ values_of C a (edge_of e) x.0 }
{
    let narrowed = if narrowed(n, x) {
        Some(Comparison {
            condition: e.condition,
            outcome: e.outcome,
            number: n.compare.number,
        })
    } else {
        None
    };
    Values {
        range: range_of(n, u16::from(x.0)),
        narrowed,
    }
}

// Some value of cell x, if it is claimed, is left on an edge from entry n.
fn feasible_for(n: Entry, e: Edge, x: RegAddr) -> bool
    ensures { (C : Certificate) (a : ℕ) → n ≡ entry_of C a → result ≡ decide (feasible_for C a (edge_of e) x.0) }
{
    !claimed_in(n, x) || !values_left(n, e, x).all(|_| false)
}

// Some value of the compared and claimed cell is left on an edge from entry n.
#[tactic(auto, unfolding(safety::specs::Rules::feasible, crate::specs::Values::feasible_for))]
pub fn feasible(n: Entry, e: Edge) -> bool
    ensures { (C : Certificate) (a : ℕ) → n ≡ entry_of C a → result ≡ decide (Rattle.safety.specs.Rules.feasible C a (edge_of e)) }
{
    feasible_for(n, e, n.compare.cell)
}

// x is among the addresses that a pointer's claim, plus the offset, reaches.
fn pointed_at(n: Entry, p: RegAddr, o: u8, x: RegAddr) -> bool
    ensures { (C : Certificate) (a : ℕ) → n ≡ entry_of C a → result ≡ pointed_at C a p.0 o x.0 }
{
    let claim = range_of(n, u16::from(p.0));
    let from = u16::from(claim.least) + u16::from(o);
    let upto = u16::from(claim.greatest) + u16::from(o);
    let at = u16::from(x.0);
    from <= at && at <= upto
}

// What a write at entry n may leave in cell x. Of both halves of a pair nothing is known, also where one is the destination.
pub fn change_of(n: Entry, w: Write, x: RegAddr) -> Option<NewValue>
    ensures { (C : Certificate) (a : ℕ) → n ≡ entry_of C a → change_in result ≡ change_of C a w x.0 }
{
    match w {
        Write::Register(y, v) if x == y => Some(v),
        Write::Pointed(p, o) if pointed_at(n, p, o, x) => Some(NewValue::Unknown),
        Write::RegisterAndPair(_, _, p) if in_pair(p, x) => Some(NewValue::Unknown),
        Write::RegisterAndPair(y, q, _) if x == y => Some(NewValue::Within(q)),
        _ => None,
    }
}

impl<'a> EntryAt<'a> {
    // The entry of a ROM address.
    #[inline(always)]
    pub fn new(certificate: &entries::Certificate<'a>, address: RomAddr) -> EntryAt<'a>
        ensures of { result.certificate ≡ certificate.now }
        ensures at { result.address ≡ address }
    {
        EntryAt {
            certificate: *certificate,
            address,
            entry: certificate.entry(address),
        }
    }

    // The range of a cell: its claim's, else 0 to 255. Of FFH, which marks no claim, it says nothing.
    pub fn range(&self, x: RegAddr) -> Range
        ensures { result ≡ range (low (said_by self.now.certificate) self.now.address.0 x.0) (high (said_by self.now.certificate) self.now.address.0 x.0) }
    {
        range_of(self.entry, u16::from(x.0))
    }

    // The range of the cell behind p, the low half of a pair; behind FFH stands none, and 0 to 255 counts.
    pub fn second_half_range(&self, p: RegAddr) -> Range
        ensures { result ≡ range (low (said_by self.now.certificate) self.now.address.0 (p.0 + 1)) (high (said_by self.now.certificate) self.now.address.0 (p.0 + 1)) }
    {
        second_half_range(self.entry, p)
    }

    pub fn claimed(&self, x: RegAddr) -> bool
        ensures { result ≡ decide (Rattle.safety.specs.Rules.claimed (said_by self.now.certificate) self.now.address.0 x.0) }
    {
        claimed_in(self.entry, x)
    }

    // The values of cell x that are left on an edge.
    pub fn values_left(&self, e: Edge, x: RegAddr) -> Values
        ensures { result ≡ values_of (said_by self.now.certificate) self.now.address.0 (edge_of e) x.0 }
    {
        values_left(self.entry, e, x)
    }

    // Some value of the compared and claimed cell is left on an edge.
    pub fn feasible(&self, e: Edge) -> bool
        ensures { result ≡ decide (Rattle.safety.specs.Rules.feasible (said_by self.now.certificate) self.now.address.0 (edge_of e)) }
    {
        feasible(self.entry, e)
    }

    // What a write may leave in cell x. Of both halves of a pair nothing is known, also where one is the destination.
    pub fn change_of(&self, w: Write, x: RegAddr) -> Option<NewValue>
        ensures { change_in result ≡ change_of (said_by self.now.certificate) self.now.address.0 w x.0 }
    {
        change_of(self.entry, w, x)
    }

    // How far c is from the end of the first claim that the bound falls towards.
    fn distance(&self, c: u8) -> u8
        ensures { result ≡ distance_from self.now.entry c }
    {
        match self.entry.direction {
            1 => self.entry.first.high.saturating_sub(c),
            2 => c.saturating_sub(self.entry.first.low),
            _ => 0,
        }
    }

    // The bound where the first claimed cell holds c.
    #[tactic(auto, using(crate::proofs::Laws::product), unfolding(safety::specs::Rules::bound_at))]
    pub fn bound_at(&self, c: u8) -> u32
        ensures { result ≡ bound_at (said_by self.now.certificate) self.now.address.0 c }
    {
        u32::from(self.entry.base) + u32::from(self.entry.slope) * u32::from(self.distance(c))
    }

    // Its greatest value over the claim.
    #[tactic(auto, using(crate::proofs::Laws::product), unfolding(safety::specs::Rules::worst))]
    pub fn worst(&self) -> u32
        ensures { result ≡ worst (said_by self.now.certificate) self.now.address.0 }
    {
        let e = self.entry;
        if e.direction == 0 {
            return u32::from(e.base);
        }
        u32::from(e.base) + u32::from(e.slope) * u32::from(e.first.high.saturating_sub(e.first.low))
    }
}

// x is one of both halves of pair p.
fn in_pair(p: RegAddr, x: RegAddr) -> bool
    ensures { result ≡ (eqb x.0 p.0 || eqb x.0 (p.0 + 1)) }
{
    x == p || u16::from(x.0) == u16::from(p.0) + 1
}
