// The divider and Timer 0 over a step's oscillator periods, in closed form.
#![tactic(auto)]

ghost use Rattle.std.specs.Prelude.{◌≡◌, false, ◌+◌, ◌*◌, ◌/◌, ◌%◌};
ghost use Rattle.base.specs.Choice.{pick};
ghost use Rattle.timers.specs.Periods.{periods_of, advanced};
ghost use Rattle.timers.specs.Counting.{ticks, first, turn};
ghost use Rattle.timers.specs.Dividing.{tick_shift};
ghost use Rattle.timers.specs.Closed.{passed_of};
ghost use Rattle.timers.specs.Settled.{before_of, timers_after, with_count, registers_with};
ghost use Rattle.std.specs.Int.Bits.{bit_or};

// The control registers that drive the timers, as they were before the step's instruction or entry.
#[derive(Clone, Copy)]
pub struct Before {
    pub clkcon: u8,
    pub t0data: u8,
    pub t0con: u8,
    pub btcon: u8,
}

// Those of the registers before a step.
pub fn controls(regs: &[u8; 256]) -> Before
    ensures { result ≡ before_of regs.now }
{
    Before {
        clkcon: regs[0xD4],
        t0data: regs[0xD1],
        t0con: regs[0xD2],
        btcon: regs[0xDC],
    }
}

// Timer 0's count, and whether it has come to T0DATA.
#[derive(Drop)]
pub struct Count {
    pub count: u8,
    pub matched: bool,
}

// The divider and Timer 0.
#[derive(Drop)]
pub struct Timers {
    pub divider: u16,
    pub t0: Count,
}

// Oscillator periods a cycle, by CLKCON.4-.3.
fn periods_of(clkcon: u8) -> u16
    ensures { result ≡ periods_of clkcon }
{
    let k = clkcon / 8 % 4 * 8;
    ((0x1020810u32 >> k) % 256) as u16
}

// T0 ticks at the divider's multiples of 2 to this power, by T0CON.7-.6.
fn tick_shift(t0con: u8) -> u16
    ensures { result ≡ tick_shift t0con }
{
    let x = t0con / 64;
    match x {
        0 => 12,
        1 => 8,
        2 => 3,
        _ => 0,
    }
}

// Ticks from count c up to the first match.
fn first_match(limit: u8, c: u8) -> u16
    ensures { result ≡ first limit c }
{
    (limit as u16 + 255 - c as u16) % 256 + 1
}

// Ticks from one match to the next. Apart from `first_match`: the definitions are two (S`Counting` `first`, `turn`).
fn turn_of(limit: u8) -> u16
    ensures { result ≡ turn limit }
{
    (limit as u16 + 255) % 256 + 1
}

// Where the divider comes to, not yet modulo 4096, and how often T0's multiple is reached on the way.
#[derive(Drop)]
pub struct Passed {
    pub end: u16,
    pub ticks: u16,
}

// The divider over so many cycles. Controls, divider and cycles stay parameters, as in S`passed_of` and `timers_after`.
fn over_cycles(before: Before, divider: u16, cycles: u8) -> Passed
    ensures { result ≡ passed_of before divider cycles }
{
    let d = divider % 4096;
    let e = d + cycles as u16 * periods_of(before.clkcon);
    let j = tick_shift(before.t0con);
    let n = (e >> j) - (d >> j);
    Passed { end: e, ticks: n }
}

// n ticks from count c on.
#[tactic(auto, using(crate::proofs::CountingLaws::ticks_before, crate::proofs::CountingLaws::ticks_late))]
fn counted(c: u8, limit: u8, n: u16) -> Count
    ensures { result ≡ ticks limit n (record { count = c; matched = false }) }
{
    let f = first_match(limit, c);
    if n < f {
        return Count {
            count: ((c as u16 + n) % 256) as u8,
            matched: false,
        };
    }
    let m = turn_of(limit);
    Count {
        count: ((n - f) % m) as u8,
        matched: true,
    }
}

// Timer 0 over n of the divider's multiples: at 0 while it is held.
#[tactic(auto, unfolding(crate::specs::Counting::ticks))]
fn timer0(hold: bool, c: u8, limit: u8, n: u16) -> Count
    ensures { result ≡ pick hold (record { count = 0; matched = false }) (ticks limit n (record { count = c; matched = false })) }
{
    if hold {
        return Count {
            count: 0,
            matched: false,
        };
    }
    if n == 0 {
        return Count {
            count: c,
            matched: false,
        };
    }
    counted(c, limit, n)
}

// The timers behind a step of so many cycles.
#[tactic(auto, using(crate::proofs::ClosedLaws::periods_closed), unfolding(crate::specs::Periods::advanced))]
pub fn advance(before: Before, hold: bool, divider: u16, count: u8, cycles: u8) -> Timers
    ensures { result ≡ advanced before hold divider count cycles }
{
    let p = over_cycles(before, divider, cycles);
    let t = timer0(hold, count, before.t0data, p.ticks);
    Timers {
        divider: p.end % 4096,
        t0: t,
    }
}

// The divider where BTCON.0 may clear it.
fn cleared_divider(clear: bool, divider: u16) -> u16
    ensures { result ≡ pick clear 0 divider }
{
    if clear { 0 } else { divider }
}

// T0CON with bit 0 set behind a match.
fn pending(matched: bool, t0con: u8) -> u8
    ensures { result ≡ pick matched (bit_or t0con 1) t0con }
{
    if matched { t0con | 1 } else { t0con }
}

// BTCON with the bits that only act as they were.
fn settled_btcon(old: u8, btcon: u8) -> u8
    ensures { result ≡ btcon / 4 * 4 + old % 4 }
{
    btcon / 4 * 4 + old % 4
}

// Stores T0's count, and its request behind a match.
fn store_count(regs: &mut [u8; 256], c: Count)
    ensures { regs.new ≡ with_count regs.old c }
{
    let t0con = regs[0xD2];
    regs[0xD0] = c.count;
    regs[0xD2] = pending(c.matched, t0con);
}

// Stores the timers, and gives the divider.
#[tactic(auto, unfolding(crate::specs::Settled::registers_with))]
fn stored(regs: &mut [u8; 256], before: Before, t: Timers) -> u16
    ensures regs { regs.new ≡ registers_with before regs.old t }
    ensures divider { result ≡ t.divider }
{
    let btcon = regs[0xDC];
    let c = t.t0;
    store_count(regs, c);
    regs[0xDC] = settled_btcon(before.btcon, btcon);
    t.divider
}

// The same as `settle`, where T0 may be held or the divider cleared.
#[tactic(auto, unfolding(crate::specs::Settled::timers_after))]
fn settle_cleared(regs: &mut [u8; 256], before: Before, divider: u16, cycles: u8) -> u16
    ensures regs { regs.new ≡ registers_with before regs.old (timers_after before regs.old divider cycles) }
    ensures divider { result ≡ (timers_after before regs.old divider cycles).divider }
{
    let hold = regs[0xD2] / 8 % 2 == 1;
    let d = cleared_divider(regs[0xDC] % 2 != before.btcon % 2, divider);
    let t = advance(before, hold, d, regs[0xD0], cycles);
    stored(regs, before, t)
}

// The timers behind a step of so many cycles, in the registers that its act left: gives the divider.
pub fn settle(regs: &mut [u8; 256], before: Before, divider: u16, cycles: u8) -> u16
    ensures regs { regs.new ≡ registers_with before regs.old (timers_after before regs.old divider cycles) }
    ensures divider { result ≡ (timers_after before regs.old divider cycles).divider }
{
    let p = over_cycles(before, divider, cycles);
    if (regs[0xDC] % 4 != before.btcon % 4) | (regs[0xD2] / 8 % 2 == 1) {
        return settle_cleared(regs, before, divider, cycles);
    }
    if p.ticks == 0 {
        return p.end;
    }
    let c = counted(regs[0xD0], before.t0data, p.ticks);
    store_count(regs, c);
    p.end % 4096
}
