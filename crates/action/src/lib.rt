// What an instruction does, by the shape of its operands: the machine and the checker work on these kinds and not on 198 codes.
#![tactic(auto)]

ghost use Rattle.std.specs.Prelude.{◌≡◌, ◌%◌, ◌==◌};
ghost use Rattle.base.specs.Choice.{pick};
ghost use Rattle.action.specs.Action.{work_of, implied_action, action_of};

use crate::Action::{Binary, Load, LoadCode, LoadCodeStep, Modify, Pop, Push};
use crate::CodeAddress::{Direct, Long, Short};
use crate::Operand::{Immediate, Indirect, Register};
use base::{RegAddr, RomAddr, displaced};
use isa::{Alu, Implied, Instruction, Unary};

// A byte operand: a register; the register that another one points to, with an offset; or a number.
#[derive(Clone, Copy, Debug, PartialEq, Eq)]
pub enum Operand {
    Register(RegAddr),
    Indirect(RegAddr, u8),
    Immediate(u8),
}

// An address of program memory in the LDC group: direct; or a register pair, high half first, with an offset that is signed (8 bits) or not
// (16 bits).
#[derive(Clone, Copy, Debug, PartialEq, Eq)]
pub enum CodeAddress {
    Direct(RomAddr),
    Short(RegAddr, u8),
    Long(RegAddr, u16),
}

// What RCF, SCF and CCF do to C.
#[derive(Clone, Copy, Debug, PartialEq, Eq)]
pub enum CarryChange {
    Reset,
    Set,
    Complement,
}

// An instruction's action, destination first.
#[derive(Clone, Copy, Debug, PartialEq, Eq)]
pub enum Action {
    Binary(Alu, Operand, Operand),
    Modify(Unary, Operand),
    Load(Operand, Operand),
    Push(Operand),
    Pop(Operand),
    // LDC into a register
    LoadCode(RegAddr, CodeAddress),
    // LDCI (up) and LDCD: into a register, from a pair that is then stepped
    LoadCodeStep(RegAddr, RegAddr, bool),
    // LDE, and LDC that writes
    External,
    // JR and JP with a condition, to an address
    Jump(u8, RomAddr),
    JumpPair(RegAddr),
    Call(RomAddr),
    CallPair(RegAddr),
    Return,
    InterruptReturn,
    Carry(CarryChange),
    // EI (true) and DI
    Interrupts(bool),
    Idle,
    Stop,
    Nop,
}

// The address of working register r.
fn work(r: u8) -> RegAddr
    ensures { result ≡ work_of r }
{
    RegAddr(192 + r % 16)
}

// What the LDC group does through a register pair; an odd pair means LDE.
fn through(pair: u8, action: Action) -> Action
    ensures { result ≡ pick (pair % 2 == 0) action Action.External }
{
    if pair % 2 == 0 {
        action
    } else {
        Action::External
    }
}

fn implied_action(i: Implied) -> Action
    ensures { result ≡ implied_action i }
{
    match i {
        Implied::Idle => Action::Idle,
        Implied::Stop => Action::Stop,
        Implied::Di => Action::Interrupts(false),
        Implied::Ei => Action::Interrupts(true),
        Implied::Ret => Action::Return,
        Implied::Iret => Action::InterruptReturn,
        Implied::Rcf => Action::Carry(CarryChange::Reset),
        Implied::Scf => Action::Carry(CarryChange::Set),
        Implied::Ccf => Action::Carry(CarryChange::Complement),
        Implied::Nop => Action::Nop,
    }
}

// The action of an instruction; `next` is the address behind it.
#[tactic(auto, unfolding(crate::specs::Action::action_of))]
pub fn action_of(i: Instruction, next: RomAddr) -> Action
    ensures { result ≡ action_of i next }
{
    match i {
        Instruction::UnaryReg(op, d) => Modify(op, Register(d)),
        Instruction::UnaryAt(op, d) => Modify(op, Indirect(d, 0)),
        Instruction::Pop(d) => Pop(Register(d)),
        Instruction::PopAt(d) => Pop(Indirect(d, 0)),
        Instruction::Push(s) => Push(Register(s)),
        Instruction::PushAt(s) => Push(Indirect(s, 0)),
        Instruction::IncWork(r) => Modify(Unary::Inc, Register(work(r))),
        Instruction::AluWork(op, d, s) => Binary(op, Register(work(d)), Register(work(s))),
        Instruction::AluWorkAt(op, d, s) => Binary(op, Register(work(d)), Indirect(work(s), 0)),
        Instruction::AluReg(op, d, s) => Binary(op, Register(d), Register(s)),
        Instruction::AluRegAt(op, d, s) => Binary(op, Register(d), Indirect(s, 0)),
        Instruction::AluImm(op, d, n) => Binary(op, Register(d), Immediate(n)),
        Instruction::LoadReg(d, s) => Load(Register(d), Register(s)),
        Instruction::LoadRegAt(d, s) => Load(Register(d), Indirect(s, 0)),
        Instruction::LoadAtReg(d, s) => Load(Indirect(d, 0), Register(s)),
        Instruction::LoadImm(d, n) => Load(Register(d), Immediate(n)),
        Instruction::LoadAtImm(d, n) => Load(Indirect(d, 0), Immediate(n)),
        Instruction::LoadWorkAt(d, s) => Load(Register(work(d)), Indirect(work(s), 0)),
        Instruction::LoadAtWork(d, s) => Load(Indirect(work(d), 0), Register(work(s))),
        Instruction::LoadIndexed(d, b, x) => Load(Register(work(d)), Indirect(work(b), x)),
        Instruction::StoreIndexed(s, b, x) => Load(Indirect(work(b), x), Register(work(s))),
        Instruction::LoadWorkReg(d, s) => Load(Register(work(d)), Register(s)),
        Instruction::LoadRegWork(d, s) => Load(Register(d), Register(work(s))),
        Instruction::LoadWorkImm(d, n) => Load(Register(work(d)), Immediate(n)),
        Instruction::LdcLoad(r, p) => through(p, LoadCode(work(r), Short(work(p), 0))),
        Instruction::LdcLoadShort(r, p, x) => through(p, LoadCode(work(r), Short(work(p), x))),
        Instruction::LdcLoadLong(r, p, x) => through(p, LoadCode(work(r), Long(work(p), x))),
        Instruction::LdcLoadDirect(r, false, at) => LoadCode(work(r), Direct(at)),
        Instruction::LdcDec(r, p) => through(p, LoadCodeStep(work(r), work(p), false)),
        Instruction::LdcInc(r, p) => through(p, LoadCodeStep(work(r), work(p), true)),
        Instruction::LdcStore(_, _)
        | Instruction::LdcStoreShort(_, _, _)
        | Instruction::LdcStoreLong(_, _, _)
        | Instruction::LdcLoadDirect(_, true, _)
        | Instruction::LdcStoreDirect(_, _, _) => Action::External,
        Instruction::JumpRel(cc, x) => Action::Jump(cc, RomAddr(displaced(next.0, x))),
        Instruction::Jump(cc, to) => Action::Jump(cc, to),
        Instruction::JumpAt(p) => Action::JumpPair(p),
        Instruction::Call(to) => Action::Call(to),
        Instruction::CallAt(p) => Action::CallPair(p),
        Instruction::Implied(op) => implied_action(op),
    }
}
