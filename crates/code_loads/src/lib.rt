// Loads from program memory on registers in place: LDC, LDCI and LDCD.
// The functions are for the crate `execute`, which chooses among the actions.
// The registers and the inputs stay two parameters: with a struct of both, each contract would have to say that the inputs stay, and the definitions
// take them side by side.
#![tactic(auto)]

ghost use Rattle.std.specs.Prelude.{◌≡◌};
ghost use Rattle.base.specs.Addresses.{rom_addr};
ghost use Rattle.semantics.specs.Execute.{in_rom, code_address, load_code_of, stepped_pair, load_code_step_of};
ghost use Rattle.semantics.specs.Stops.{next_of};

use action::CodeAddress;
use base::{RegAddr, RomAddr};
use chip::{Inputs, Registers};
use semantics::{Mode, Next, Stop};

// Goes on at pc; refused where a is outside ROM.
fn in_rom(image: &[u8], a: RomAddr, pc: RomAddr) -> Next
    ensures { next_of result ≡ in_rom image.now a.0 pc }
{
    Next {
        pc,
        mode: Mode::Running,
        stop: (image.len() <= usize::from(a.0)).then_some(Stop::ProgramMemory),
    }
}

// The address that LDC reads.
#[tactic(auto, unfolding(semantics::specs::Execute::code_address))]
fn code_address(from: CodeAddress, regs: &Registers, rec: &Inputs) -> RomAddr
    ensures { result ≡ rom_addr (code_address from regs.now rec.now) }
{
    match from {
        CodeAddress::Direct(a) => a,
        CodeAddress::Short(p, x) => RomAddr(base::displaced(operands::word_at(regs, rec, p), x)),
        CodeAddress::Long(p, x) => RomAddr(operands::word_at(regs, rec, p).wrapping_add(x)),
    }
}

// LDC.
#[tactic(auto, unfolding(semantics::specs::Execute::load_code_of))]
pub fn load_code(
    d: RegAddr,
    from: CodeAddress,
    image: &[u8],
    regs: &mut Registers,
    rec: &Inputs,
    pc: RomAddr,
) -> Next
    ensures regs { regs.new ≡ (load_code_of d from image.now regs.old rec.now pc).regs }
    ensures next { next_of result ≡ (load_code_of d from image.now regs.old rec.now pc).next }
{
    let a = code_address(from, regs, rec);
    chip::store(regs, d, base::byte_at(image, usize::from(a.0)));
    in_rom(image, a, pc)
}

// A pair counts up or down.
#[tactic(auto, unfolding(semantics::specs::Execute::stepped_pair))]
fn step_pair(regs: &mut Registers, rec: &Inputs, p: RegAddr, up: bool)
    ensures { regs.new ≡ stepped_pair regs.old rec.now p.0 up }
{
    let word = operands::word_at(regs, rec, p);
    let stepped = if up {
        word.wrapping_add(1)
    } else {
        word.wrapping_sub(1)
    };
    let [high, low] = stepped.to_be_bytes();
    chip::store(regs, p, high);
    chip::store(regs, operands::behind(p), low);
}

// LDCI, LDCD: the destination is loaded, then the pair is stepped as it then is.
#[tactic(auto, unfolding(semantics::specs::Execute::load_code_step_of))]
pub fn load_code_step(
    d: RegAddr,
    p: RegAddr,
    up: bool,
    image: &[u8],
    regs: &mut Registers,
    rec: &Inputs,
    pc: RomAddr,
) -> Next
    ensures regs { regs.new ≡ (load_code_step_of d p up image.now regs.old rec.now pc).regs }
    ensures next { next_of result ≡ (load_code_step_of d p up image.now regs.old rec.now pc).next }
{
    let a = RomAddr(operands::word_at(regs, rec, p));
    chip::store(regs, d, base::byte_at(image, usize::from(a.0)));
    step_pair(regs, rec, p, up);
    in_rom(image, a, pc)
}
