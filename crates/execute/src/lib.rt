// What each action does, on registers in place: one function for each kind of action, and the choice among them. Of the flags that it computes
// those are set which the decoder named.
// The functions are for the crate `step`, which makes steps of them.
// The registers and the inputs stay two parameters: with a struct of both, each contract would have to say that the inputs stay, and the definitions
// take them side by side. So do the flags that are named and the address behind (S`execute_of`).
#![tactic(auto)]

ghost use Rattle.std.specs.Prelude.{◌≡◌, true};
ghost use Rattle.chip.specs.Interrupts.{set_interrupts_of};
ghost use Rattle.semantics.specs.declared.Mode.TheVariants.{Running};
ghost use Rattle.semantics.specs.Execute.{leaves, goes_on, store_if, binary_of, modify_of, load_into, jump_of, jump_pair_of, carry_changed, carry_of, stop_of, execute_of};
ghost use Rattle.semantics.specs.Stops.{next_of};

use action::{Action, CarryChange, Operand};
use base::{FLAGS_INDEX, RegAddr, RomAddr, STOPCON_INDEX};
use chip::{Inputs, Registers};
use code_loads::{load_code, load_code_step};
use isa::{Alu, Flag, FlagSet, Unary, flag_in};
use semantics::{Mode, Next, Stop};

#[tactic(auto, unfolding(semantics::specs::Execute::store_if))]
fn store_if(regs: &mut Registers, on: bool, a: RegAddr, v: u8)
    ensures { regs.new ≡ store_if regs.old on a v }
{
    if on {
        chip::store(regs, a, v);
    }
}

// ADD, ADC, SUB, SBC, OR, AND, XOR; TCM, TM, CP.
#[tactic(auto, unfolding(semantics::specs::Execute::binary_of, alu::specs::Flags::carry))]
fn binary(
    op: Alu,
    d: Operand,
    s: Operand,
    names: FlagSet,
    regs: &mut Registers,
    rec: &Inputs,
    pc: RomAddr,
) -> Next
    ensures regs { regs.new ≡ (binary_of op d s names regs.old rec.now pc).regs }
    ensures next { next_of result ≡ (binary_of op d s names regs.old rec.now pc).next }
{
    let p = operands::place_of(regs, rec, d);
    let q = operands::fetch(regs, rec, s);
    let x = chip::load(regs, rec, p.addr);
    let c = flag_in(Flag::Carry, regs[FLAGS_INDEX]);
    let r = alu::operate(op, x, q.value, c);
    store_if(regs, alu::stores(op), p.addr, r.value);
    operands::with_flags(regs, names, r.flags);
    operands::goes_on(p.ok & q.ok, pc)
}

// INC, DEC, COM, CLR, RL, RLC, RR, RRC, SRA.
#[tactic(auto, unfolding(semantics::specs::Execute::modify_of, alu::specs::Flags::carry))]
fn modify(
    op: Unary,
    d: Operand,
    names: FlagSet,
    regs: &mut Registers,
    rec: &Inputs,
    pc: RomAddr,
) -> Next
    ensures regs { regs.new ≡ (modify_of op d names regs.old rec.now pc).regs }
    ensures next { next_of result ≡ (modify_of op d names regs.old rec.now pc).next }
{
    let p = operands::place_of(regs, rec, d);
    let x = chip::load(regs, rec, p.addr);
    let c = flag_in(Flag::Carry, regs[FLAGS_INDEX]);
    let r = alu::modify(op, x, c);
    chip::store(regs, p.addr, r.value);
    operands::with_flags(regs, names, r.flags);
    operands::goes_on(p.ok, pc)
}

// LD.
#[tactic(auto, unfolding(semantics::specs::Execute::load_into))]
fn load(d: Operand, s: Operand, regs: &mut Registers, rec: &Inputs, pc: RomAddr) -> Next
    ensures regs { regs.new ≡ (load_into d s regs.old rec.now pc).regs }
    ensures next { next_of result ≡ (load_into d s regs.old rec.now pc).next }
{
    let p = operands::place_of(regs, rec, d);
    let q = operands::fetch(regs, rec, s);
    chip::store(regs, p.addr, q.value);
    operands::goes_on(p.ok & q.ok, pc)
}

// JP, JR.
#[tactic(auto, unfolding(semantics::specs::Execute::jump_of))]
fn jump(cc: u8, to: RomAddr, regs: &Registers, pc: RomAddr) -> Next
    ensures { next_of result ≡ (jump_of cc to regs.now pc).next }
{
    let taken = conditions::condition(cc, regs[FLAGS_INDEX]);
    operands::goes_on(true, if taken { to } else { pc })
}

#[tactic(auto, unfolding(semantics::specs::Execute::jump_pair_of))]
fn jump_pair(p: RegAddr, regs: &Registers, rec: &Inputs) -> Next
    ensures { next_of result ≡ (jump_pair_of p regs.now rec.now).next }
{
    operands::goes_on(
        operands::word_mapped(p),
        RomAddr(operands::word_at(regs, rec, p)),
    )
}

// What RCF, SCF and CCF make of C.
#[tactic(auto, unfolding(semantics::specs::Execute::carry_changed))]
fn carry_changed(change: CarryChange, c: bool) -> bool
    ensures { result ≡ carry_changed change c }
{
    match change {
        CarryChange::Reset => false,
        CarryChange::Set => true,
        CarryChange::Complement => !c,
    }
}

// RCF, SCF, CCF.
#[tactic(auto, unfolding(semantics::specs::Execute::carry_of, alu::specs::Flags::carry))]
fn change_carry(change: CarryChange, names: FlagSet, regs: &mut Registers, pc: RomAddr) -> Next
    ensures regs { regs.new ≡ (carry_of change names regs.old pc).regs }
    ensures next { next_of result ≡ (carry_of change names regs.old pc).next }
{
    let c = carry_changed(change, flag_in(Flag::Carry, regs[FLAGS_INDEX]));
    operands::with_flags(regs, names, alu::flags_byte(c, false, false, false));
    operands::goes_on(true, pc)
}

// EI, DI.
fn switch_interrupts(on: bool, regs: &mut Registers, pc: RomAddr) -> Next
    ensures regs { regs.new ≡ set_interrupts_of regs.old on }
    ensures next { next_of result ≡ goes_on true pc }
{
    interrupts::set_interrupts(regs, on);
    operands::goes_on(true, pc)
}

// IDLE, STOP: the machine waits at pc.
fn waits(mode: Mode, pc: RomAddr) -> Next
    ensures { next_of result ≡ leaves pc mode 0 }
{
    Next {
        pc,
        mode,
        stop: None,
    }
}

// STOP waits where STOPCON is A5H, else it loads 0100H.
#[tactic(auto, unfolding(semantics::specs::Execute::stop_of))]
fn stop_mode(regs: &Registers, pc: RomAddr) -> Next
    ensures { next_of result ≡ (stop_of regs.now pc).next }
{
    if regs[STOPCON_INDEX] == 0xA5 {
        waits(Mode::Stopped, pc)
    } else {
        operands::goes_on(true, RomAddr(0x100))
    }
}

// LDE, and LDC that writes.
fn external(pc: RomAddr) -> Next
    ensures { next_of result ≡ leaves pc Running 14 }
{
    Next {
        pc,
        mode: Mode::Running,
        stop: Some(Stop::ProgramMemory),
    }
}

// One instruction with the flags that it names; pc is the address behind it.
#[tactic(auto, unfolding(semantics::specs::Execute::execute_of, semantics::specs::Execute::jump_of, semantics::specs::Execute::jump_pair_of, semantics::specs::Execute::stop_of))]
pub fn execute(
    action: Action,
    names: FlagSet,
    image: &[u8],
    regs: &mut Registers,
    rec: &Inputs,
    pc: RomAddr,
) -> Next
    ensures regs { regs.new ≡ (execute_of action names image.now regs.old rec.now pc).regs }
    ensures next { next_of result ≡ (execute_of action names image.now regs.old rec.now pc).next }
{
    match action {
        Action::Binary(op, d, s) => binary(op, d, s, names, regs, rec, pc),
        Action::Modify(op, d) => modify(op, d, names, regs, rec, pc),
        Action::Load(d, s) => load(d, s, regs, rec, pc),
        Action::Push(s) => stack::push_operand(s, regs, rec, pc),
        Action::Pop(d) => stack::pop_operand(d, regs, rec, pc),
        Action::LoadCode(d, from) => load_code(d, from, image, regs, rec, pc),
        Action::LoadCodeStep(d, p, up) => load_code_step(d, p, up, image, regs, rec, pc),
        Action::External => external(pc),
        Action::Jump(cc, to) => jump(cc, to, regs, pc),
        Action::JumpPair(p) => jump_pair(p, regs, rec),
        Action::Call(to) => stack::call(to, regs, pc),
        Action::CallPair(p) => stack::call_pair(p, regs, rec, pc),
        Action::Return => stack::return_from_call(regs, rec),
        Action::InterruptReturn => stack::interrupt_return(names, regs, rec),
        Action::Carry(change) => change_carry(change, names, regs, pc),
        Action::Interrupts(on) => switch_interrupts(on, regs, pc),
        Action::Idle => waits(Mode::Idle, pc),
        Action::Stop => stop_mode(regs, pc),
        Action::Nop => operands::goes_on(true, pc),
    }
}
