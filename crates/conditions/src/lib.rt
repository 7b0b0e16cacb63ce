// The 16 conditions of a FLAGS byte.
#![tactic(auto)]

ghost use Rattle.std.specs.Prelude.{◌≡◌};
ghost use Rattle.alu.specs.Flags.{condition_on, condition};

use isa::{Flag, flag_in};

// The condition with this number, of C, Z, S, V.
#[tactic(auto, unfolding(alu::specs::Flags::condition_on))]
fn condition_on(number: u8, c: bool, z: bool, s: bool, v: bool) -> bool
    ensures { result ≡ condition_on number c z s v }
{
    match number {
        0 => false,
        1 => s != v,
        2 => z || s != v,
        3 => c || z,
        4 => v,
        5 => s,
        6 => z,
        7 => c,
        8 => true,
        9 => s == v,
        10 => !z && s == v,
        11 => !c && !z,
        12 => !v,
        13 => !s,
        14 => !z,
        15 => !c,
        _ => false,
    }
}

// The condition cc of a FLAGS byte; the low 4 bits of cc count.
#[tactic(auto, unfolding(alu::specs::Flags::condition, alu::specs::Flags::carry, alu::specs::Flags::zero_flag, alu::specs::Flags::sign_flag, alu::specs::Flags::overflow_flag))]
pub fn condition(cc: u8, flags: u8) -> bool
    ensures { result ≡ condition cc flags }
{
    condition_on(
        cc % 16,
        flag_in(Flag::Carry, flags),
        flag_in(Flag::Zero, flags),
        flag_in(Flag::Sign, flags),
        flag_in(Flag::Overflow, flags),
    )
}
