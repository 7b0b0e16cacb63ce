// The stack on registers in place: pushes, and the actions that push or pop.
// The functions are for the crates above, which make instructions and interrupt entries of them.
// Whether a register was mapped is a bool, and no `Result`: what follows is done all the same (S`push_address`).
// The registers and the inputs stay two parameters: with a struct of both, each contract would have to say that the inputs stay, and the definitions
// take them side by side.
#![tactic(auto)]

ghost use Rattle.std.specs.Prelude.{◌≡◌};
ghost use Rattle.semantics.specs.Operands.{lowered, raised, store_top, push_of, push_address};
ghost use Rattle.semantics.specs.Execute.{push_operand, pop_operand, call_of, call_pair_of, return_of, interrupt_return_of};
ghost use Rattle.semantics.specs.Stops.{next_of};

use action::Operand;
use base::{RegAddr, RomAddr, SP_INDEX};
use chip::{Inputs, Registers};
use isa::FlagSet;
use semantics::Next;

// SP is lowered by one.
#[tactic(auto, unfolding(semantics::specs::Operands::lowered))]
fn lower(regs: &mut Registers)
    ensures { regs.new ≡ lowered regs.old }
{
    regs[SP_INDEX] = regs[SP_INDEX].wrapping_sub(1);
}

// SP is raised by k.
#[tactic(auto, unfolding(semantics::specs::Operands::raised))]
fn raise(regs: &mut Registers, k: u8)
    ensures { regs.new ≡ raised regs.old k }
{
    regs[SP_INDEX] = regs[SP_INDEX].wrapping_add(k);
}

// A write where SP points; whether that is mapped.
#[tactic(auto, unfolding(semantics::specs::Operands::store_top))]
fn store_top(regs: &mut Registers, v: u8) -> bool
    ensures regs { regs.new ≡ (store_top regs.old v).regs }
    ensures ok { result ≡ (store_top regs.old v).ok }
{
    let a = RegAddr(regs[SP_INDEX]);
    chip::store(regs, a, v);
    chip::mapped(a)
}

// SP is lowered, then v is written where it points; whether that is mapped.
#[tactic(auto, unfolding(semantics::specs::Operands::push_of))]
pub fn push(regs: &mut Registers, v: u8) -> bool
    ensures regs { regs.new ≡ (push_of regs.old v).regs }
    ensures ok { result ≡ (push_of regs.old v).ok }
{
    lower(regs);
    store_top(regs, v)
}

// The low half of an address is pushed, then the high half.
#[tactic(auto, unfolding(semantics::specs::Operands::push_address))]
pub fn push_address(regs: &mut Registers, a: RomAddr) -> bool
    ensures regs { regs.new ≡ (push_address regs.old a).regs }
    ensures ok { result ≡ (push_address regs.old a).ok }
{
    let [high, low] = a.0.to_be_bytes();
    let low_ok = push(regs, low);
    let high_ok = push(regs, high);
    low_ok & high_ok
}

// PUSH: SP is lowered, then the operand is read.
#[tactic(auto, unfolding(semantics::specs::Execute::push_operand))]
pub fn push_operand(s: Operand, regs: &mut Registers, rec: &Inputs, pc: RomAddr) -> Next
    ensures regs { regs.new ≡ (push_operand s regs.old rec.now pc).regs }
    ensures next { next_of result ≡ (push_operand s regs.old rec.now pc).next }
{
    lower(regs);
    let q = operands::fetch(regs, rec, s);
    let ok = store_top(regs, q.value);
    operands::goes_on(q.ok & ok, pc)
}

// POP: the byte where SP points is stored, then SP is raised.
#[tactic(auto, unfolding(semantics::specs::Execute::pop_operand))]
pub fn pop_operand(d: Operand, regs: &mut Registers, rec: &Inputs, pc: RomAddr) -> Next
    ensures regs { regs.new ≡ (pop_operand d regs.old rec.now pc).regs }
    ensures next { next_of result ≡ (pop_operand d regs.old rec.now pc).next }
{
    let p = operands::place_of(regs, rec, d);
    let top = RegAddr(regs[SP_INDEX]);
    let v = chip::load(regs, rec, top);
    chip::store(regs, p.addr, v);
    raise(regs, 1);
    operands::goes_on(p.ok & chip::mapped(top), pc)
}

// CALL: the address behind it is pushed.
#[tactic(auto, unfolding(semantics::specs::Execute::call_of))]
pub fn call(to: RomAddr, regs: &mut Registers, pc: RomAddr) -> Next
    ensures regs { regs.new ≡ (call_of to regs.old pc).regs }
    ensures next { next_of result ≡ (call_of to regs.old pc).next }
{
    operands::goes_on(push_address(regs, pc), to)
}

// CALL through a pair, which is read after the pushes.
#[tactic(auto, unfolding(semantics::specs::Execute::call_pair_of))]
pub fn call_pair(p: RegAddr, regs: &mut Registers, rec: &Inputs, pc: RomAddr) -> Next
    ensures regs { regs.new ≡ (call_pair_of p regs.old rec.now pc).regs }
    ensures next { next_of result ≡ (call_pair_of p regs.old rec.now pc).next }
{
    let ok = push_address(regs, pc);
    operands::goes_on(
        ok & operands::word_mapped(p),
        RomAddr(operands::word_at(regs, rec, p)),
    )
}

// RET.
#[tactic(auto, unfolding(semantics::specs::Execute::return_of))]
pub fn return_from_call(regs: &mut Registers, rec: &Inputs) -> Next
    ensures regs { regs.new ≡ (return_of regs.old rec.now).regs }
    ensures next { next_of result ≡ (return_of regs.old rec.now).next }
{
    let top = RegAddr(regs[SP_INDEX]);
    let to = RomAddr(operands::word_at(regs, rec, top));
    raise(regs, 2);
    operands::goes_on(operands::word_mapped(top), to)
}

// IRET: the flags that it names from the stack, then as RET; SYM.2 becomes 1.
#[tactic(auto, unfolding(semantics::specs::Execute::interrupt_return_of))]
pub fn interrupt_return(names: FlagSet, regs: &mut Registers, rec: &Inputs) -> Next
    ensures regs { regs.new ≡ (interrupt_return_of names regs.old rec.now).regs }
    ensures next { next_of result ≡ (interrupt_return_of names regs.old rec.now).next }
{
    let top = RegAddr(regs[SP_INDEX]);
    let f = chip::load(regs, rec, top);
    operands::with_flags(regs, names, f);
    raise(regs, 1);
    let high = RegAddr(regs[SP_INDEX]);
    let t = return_from_call(regs, rec);
    interrupts::set_interrupts(regs, true);
    operands::goes_on(chip::mapped(top) & operands::word_mapped(high), t.pc)
}
