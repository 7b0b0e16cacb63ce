// Operands, words and FLAGS on registers in place, and how an action goes on.
// The functions are for the crates above, which make actions and interrupt entries of them.
// The registers and the inputs stay two parameters: with a struct of both, each contract would have to say that the inputs stay, and the definitions
// take them side by side.
// Tests of mapped registers are joined by `&`, without branches, here and above.
#![tactic(auto)]

ghost use Rattle.std.specs.Prelude.{◌≡◌, ◌+◌, ◌%◌};
ghost use Rattle.base.specs.Addresses.{reg_addr};
ghost use Rattle.semantics.specs.Operands.{place_of, fetch_place, fetch_of, with_flags, word_at, word_mapped};
ghost use Rattle.semantics.specs.Execute.{goes_on};
ghost use Rattle.semantics.specs.Stops.{next_of};

use action::Operand;
use base::{FLAGS_INDEX, RegAddr, RomAddr};
use chip::{Inputs, Registers};
use isa::FlagSet;
use semantics::{Fetched, Mode, Next, Place, Stop};

// The place of an operand; a number has none.
#[tactic(auto, unfolding(semantics::specs::Operands::place_of))]
pub fn place_of(regs: &Registers, rec: &Inputs, o: Operand) -> Place
    ensures { result ≡ place_of regs.now rec.now o }
{
    match o {
        Operand::Register(addr) => Place {
            addr,
            ok: chip::mapped(addr),
        },
        Operand::Indirect(p, x) => {
            let addr = RegAddr(chip::load(regs, rec, p).wrapping_add(x));
            Place {
                addr,
                ok: chip::mapped(p) & chip::mapped(addr),
            }
        }
        Operand::Immediate(_) => Place {
            addr: RegAddr(0),
            ok: false,
        },
    }
}

// What stands at an operand's place.
#[tactic(auto, unfolding(semantics::specs::Operands::fetch_place))]
fn fetch_place(regs: &Registers, rec: &Inputs, p: Place) -> Fetched
    ensures { result ≡ fetch_place regs.now rec.now p }
{
    Fetched {
        value: chip::load(regs, rec, p.addr),
        ok: p.ok,
    }
}

// An operand's byte.
#[tactic(auto, unfolding(semantics::specs::Operands::fetch_of))]
pub fn fetch(regs: &Registers, rec: &Inputs, o: Operand) -> Fetched
    ensures { result ≡ fetch_of regs.now rec.now o }
{
    match o {
        Operand::Register(_) | Operand::Indirect(_, _) => {
            fetch_place(regs, rec, place_of(regs, rec, o))
        }
        Operand::Immediate(value) => Fetched { value, ok: true },
    }
}

// The flags that an instruction names are set over FLAGS, as they are in x; where none is named FLAGS stays whole.
#[tactic(auto, unfolding(semantics::specs::Operands::with_flags))]
pub fn with_flags(regs: &mut Registers, names: FlagSet, x: u8)
    ensures { regs.new ≡ with_flags regs.old names x }
{
    if names.0 != 0 {
        regs[FLAGS_INDEX] = alu::update(regs[FLAGS_INDEX], names, x);
    }
}

// The register behind a.
pub fn behind(a: RegAddr) -> RegAddr
    ensures { result ≡ reg_addr ((a.0 + 1) % 256) }
{
    RegAddr(a.0.wrapping_add(1))
}

// The word at a register and the one behind it.
#[tactic(auto, unfolding(semantics::specs::Operands::word_at))]
pub fn word_at(regs: &Registers, rec: &Inputs, a: RegAddr) -> u16
    ensures { result ≡ word_at regs.now rec.now a.0 }
{
    base::word(chip::load(regs, rec, a), chip::load(regs, rec, behind(a)))
}

#[tactic(auto, unfolding(semantics::specs::Operands::word_mapped))]
pub fn word_mapped(a: RegAddr) -> bool
    ensures { result ≡ word_mapped a.0 }
{
    chip::mapped(a) & chip::mapped(behind(a))
}

// Goes on at pc; refused where a register was not mapped.
pub fn goes_on(ok: bool, pc: RomAddr) -> Next
    ensures { next_of result ≡ goes_on ok pc }
{
    Next {
        pc,
        mode: Mode::Running,
        stop: (!ok).then_some(Stop::Unmapped),
    }
}
