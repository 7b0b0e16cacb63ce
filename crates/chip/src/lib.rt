// The register file: which addresses are mapped, a step's inputs, what a read gives, what a write leaves, reset.
#![tactic(auto)]

ghost use Rattle.std.specs.Prelude.{◌≡◌};
ghost use Rattle.base.specs.Choice.{pick};
ghost use Rattle.chip.specs.Registers.{kept_bits, mapped_of, inputs_of, grounded_now, load_of, written_f7, written_of, kept_of, store_of};
ghost use Rattle.chip.specs.Reset.{reset_registers};
ghost use Rattle.chip.specs.Words.{kept_word};

use base::RegAddr;

// The register file: a byte for each address.
pub type Registers = [u8; 256];

// A schedule record.
pub type Record = [u8; base::RECORD_LENGTH];

// The inputs of a step: the bytes of its schedule record, and one that is 1 on a part whose A/D inputs from 3 on are grounded, else 0. Bytes, and no
// struct: `inputs_of` and `load_of` read them as one list.
pub type Inputs = [u8; base::RECORD_LENGTH + 1];

// The inputs of a step under a record, on a part that grounds those A/D inputs or not.
pub fn inputs(grounds: bool, rec: Record) -> Inputs
    ensures { result ≡ inputs_of grounds rec }
{
    let [a, b, c, d, e, f, g, h] = rec;
    [a, b, c, d, e, f, g, h, u8::from(grounds)]
}

// Whether a is RAM or a control register.
pub fn mapped(a: RegAddr) -> bool
    ensures { result ≡ mapped_of a.0 }
{
    let n = a.0;
    n < 0xD0 || (0x39C0FC7FA37u64 >> (n - 0xD0)) % 2 == 1
}

// The kept bits of addresses 8 * k to 8 * k + 7, lowest address lowest.
fn kept_word(k: u8) -> u64
    ensures { result ≡ kept_word k }
{
    match k {
        26 => 0xF09800CBFF00,
        27 => 0x40000FCFF00FF00,
        28 => 0xFFFF0000007F07FF,
        29 => 0xFF7FCF0F,
        30 => 0xFE0000FFDFFF0000,
        31 => 0x0,
        _ => 0xFFFFFFFFFFFFFFFF,
    }
}

// The bits that address n keeps.
#[tactic(auto, using(crate::proofs::Packed::kept_at))]
fn kept_bits(n: u8) -> u8
    ensures { result ≡ kept_bits n }
{
    let k = n % 8 * 8;
    ((kept_word(n / 8) >> k) % 256) as u8
}

// Whether the A/D input that ADCON selects is grounded.
#[tactic(auto, unfolding(crate::specs::Registers::grounded_now))]
fn grounded_now(regs: &Registers, rec: &Inputs) -> bool
    ensures { result ≡ grounded_now regs.now rec.now }
{
    rec[8] == 1 && 3 <= regs[0xF7] / 16
}

// What a read of the A/D result gives, where v is the record's.
fn converted(regs: &Registers, rec: &Inputs, v: u8) -> u8
    ensures { result ≡ pick (grounded_now regs.now rec.now) 0 v }
{
    if grounded_now(regs, rec) { 0 } else { v }
}

// What a step with inputs rec reads at a.
#[tactic(auto, unfolding(crate::specs::Registers::load_of))]
pub fn load(regs: &Registers, rec: &Inputs, a: RegAddr) -> u8
    ensures { result ≡ load_of regs.now rec.now a.0 }
{
    let n = a.0;
    let i = usize::from(n);
    if n < 0xD0 {
        return regs[i];
    }
    match n {
        0xE0 => rec[1],
        0xE1 => rec[2] % 8,
        0xE2 => rec[3] % 128,
        0xD0 => rec[4],
        0xDD => rec[5],
        0xF8 => converted(regs, rec, rec[6]),
        0xF9 => converted(regs, rec, rec[7] % 4),
        _ => regs[i] & kept_bits(n),
    }
}

// F7H: bit 3 stays, except that writing 1 to bit 0 clears it.
fn written_f7(old: u8, v: u8) -> u8
    ensures { result ≡ written_f7 old v }
{
    if v % 2 == 1 {
        v & 0xF7
    } else {
        (v & 0xF7) | (old & 0x08)
    }
}

// What a write of v asks for at control register n, which holds old.
#[tactic(auto, unfolding(crate::specs::Registers::written_of))]
fn written(n: u8, old: u8, v: u8) -> u8
    ensures { result ≡ written_of n old v }
{
    match n {
        0xD2 => v & (old | 0xFE),
        0xE8 => v & (old | 0xFA),
        0xF3 => v & (old | 0xFE),
        0xF7 => written_f7(old, v),
        _ => v,
    }
}

// What a write of v leaves at a, which holds old.
#[tactic(auto, unfolding(crate::specs::Registers::kept_of))]
fn kept(a: RegAddr, old: u8, v: u8) -> u8
    ensures { result ≡ kept_of a.0 old v }
{
    let n = a.0;
    if n < 0xD0 {
        return v;
    }
    let bits = kept_bits(n);
    if bits == 0 {
        return old;
    }
    written(n, old, v) & bits
}

// Writes v at a.
#[tactic(auto, unfolding(crate::specs::Registers::store_of))]
pub fn store(regs: &mut Registers, a: RegAddr, v: u8)
    ensures { regs.new ≡ store_of regs.old a.0 v }
{
    let i = usize::from(a.0);
    regs[i] = kept(a, regs[i], v);
}

// The registers at reset: table 8-1. What it leaves open (RAM, SP, the kept bits of FLAGS, F8H and F9H) is 0.
#[tactic(auto, unfolding(crate::specs::Reset::reset_registers))]
pub fn reset_registers() -> Registers
    ensures { result ≡ reset_registers }
{
    let mut regs = [0u8; 256];
    regs[0xD0] = 0x00;
    regs[0xD1] = 0xFF;
    regs[0xD2] = 0x00;
    regs[0xD4] = 0x00;
    regs[0xDB] = 0x00;
    regs[0xDC] = 0x00;
    regs[0xDD] = 0x00;
    regs[0xDE] = 0x00;
    regs[0xDF] = 0x00;
    regs[0xE0] = 0x00;
    regs[0xE1] = 0x00;
    regs[0xE2] = 0x00;
    regs[0xE6] = 0x00;
    regs[0xE7] = 0x00;
    regs[0xE8] = 0x00;
    regs[0xE9] = 0x00;
    regs[0xEA] = 0x00;
    regs[0xEB] = 0x00;
    regs[0xF2] = 0x00;
    regs[0xF3] = 0x00;
    regs[0xF4] = 0x00;
    regs[0xF7] = 0x00;
    regs[0xF8] = 0x00;
    regs[0xF9] = 0x00;
    regs
}
