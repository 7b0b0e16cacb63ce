// Interrupts on the register file: the enable bit SYM.2, pending requests, and the requests of a schedule record.
// Each step asks for them, so the tests are joined without a branch, by `|`: `||` takes 5 instructions more.
#![tactic(auto)]

ghost use Rattle.std.specs.Prelude.{◌≡◌};
ghost use Rattle.chip.specs.Interrupts.{interrupts_enabled, set_interrupts_of, pending_edge, pending_any, raise_of, post_of};

use base::{RegAddr, SYM_INDEX};
use chip::Registers;

// The interrupt enable, SYM.2.
#[tactic(auto, unfolding(chip::specs::Interrupts::interrupts_enabled))]
pub fn interrupts_enabled(regs: &Registers) -> bool
    ensures { result ≡ interrupts_enabled regs.now }
{
    regs[SYM_INDEX] / 4 % 2 == 1
}

// SYM.2 becomes on: EI, DI, interrupt entry, IRET.
#[tactic(auto, unfolding(chip::specs::Interrupts::set_interrupts_of, chip::specs::Registers::store_of, chip::specs::Registers::kept_of, chip::specs::Registers::written_of, chip::specs::Registers::kept_bits))]
pub fn set_interrupts(regs: &mut Registers, on: bool)
    ensures { regs.new ≡ set_interrupts_of regs.old on }
{
    regs[SYM_INDEX] = if on { 0x04 } else { 0x00 };
}

// An external source is enabled and pending.
#[tactic(auto, unfolding(chip::specs::Interrupts::pending_edge))]
pub fn pending_edge(regs: &Registers) -> bool
    ensures { result ≡ pending_edge regs.now }
{
    (regs[0xE8] % 4 == 3) | (regs[0xE8] / 4 % 4 == 3)
}

// Any source is enabled and pending.
#[tactic(auto, unfolding(chip::specs::Interrupts::pending_any))]
pub fn pending_any(regs: &Registers) -> bool
    ensures { result ≡ pending_any regs.now }
{
    (regs[0xD2] % 4 == 3) | (regs[0xF3] % 4 == 3) | pending_edge(regs)
}

// Sets the bits at a, if on.
#[tactic(auto, unfolding(chip::specs::Interrupts::raise_of))]
fn raise(regs: &mut Registers, on: bool, a: RegAddr, bits: u8)
    ensures { regs.new ≡ raise_of regs.old on a.0 bits }
{
    if on {
        regs[usize::from(a.0)] |= bits;
    }
}

// The requests of a schedule record's byte 0.
#[tactic(auto, unfolding(chip::specs::Interrupts::post_of, chip::specs::Interrupts::raise_of))]
pub fn post(regs: &mut Registers, requests: u8)
    ensures { regs.new ≡ post_of regs.old requests }
{
    if requests == 0 {
        return;
    }
    raise(regs, requests % 2 == 1, RegAddr(0xD2), 0x01);
    raise(regs, requests / 2 % 2 == 1, RegAddr(0xF3), 0x01);
    raise(regs, requests / 4 % 2 == 1, RegAddr(0xE8), 0x01);
    raise(regs, requests / 8 % 2 == 1, RegAddr(0xE8), 0x04);
    raise(regs, requests / 16 % 2 == 1, RegAddr(0xF7), 0x08);
}
