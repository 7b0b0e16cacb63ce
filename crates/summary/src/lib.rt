// The effect summary of an action at an address and the flags that it names.
#![tactic(auto)]

ghost use Rattle.std.specs.Prelude.{◌≡◌};
ghost use Rattle.certificate.specs.Summaries.{write_to, binary_value, flag_effect, binary_flags, binary_summary, modify_value, load_summary};
ghost use Rattle.certificate.specs.Summaries.{code_access, summary_of};
ghost use Rattle.alu.specs.Operations.{stores};
ghost use Rattle.entries.specs.Fields.{said_by};
ghost use Rattle.safety.specs.CodeRange.{load_range};
ghost use Rattle.certificate.specs.declared.NewValue.TheVariants.{Unknown, Within};
ghost use Rattle.certificate.specs.declared.StackEffect.TheVariants.{Same, Push, Pop};

use action::{Action, CodeAddress, Operand};
use base::{RegAddr, RomAddr};
use certificate::{
    Access, CodeAccess, Control, FlagEffect, Flow, NewValue, Range, StackEffect, Summary, Write,
};
use claims::EntryAt;
use isa::{Alu, FlagSet, Unary};

fn write_to(d: Operand, v: NewValue) -> Write
    ensures { result ≡ write_to d v }
{
    match d {
        Operand::Register(a) => Write::Register(a, v),
        Operand::Indirect(p, x) => Write::Pointed(p, x),
        Operand::Immediate(_) => Write::Nothing,
    }
}

fn reading(s: Operand) -> Access
    ensures { result ≡ Rattle.certificate.specs.Summaries.reading s }
{
    match s {
        Operand::Register(a) => Access::Register(a),
        Operand::Indirect(p, x) => Access::Pointed(p, x),
        Operand::Immediate(_) => Access::Nothing,
    }
}

// Stores, reads and changes nothing; control goes behind the instruction.
const PLAIN: Summary = Summary {
    write: Write::Nothing,
    first: Access::Nothing,
    second: Access::Nothing,
    code: CodeAccess::Nothing,
    flags: FlagEffect::Kept,
    stack: StackEffect::Same,
    control: Control::Nothing,
    flow: Flow::Step(0, RomAddr(0)),
};

// A summary that stores and reads operands.
fn moving(
    write: Write,
    first: Access,
    second: Access,
    flags: FlagEffect,
    stack: StackEffect,
) -> Summary
    ensures { result ≡ Rattle.certificate.specs.Summaries.moving write first second flags stack }
{
    Summary {
        write,
        first,
        second,
        flags,
        stack,
        ..PLAIN
    }
}

fn reaching(write: Write, code: CodeAccess, flags: FlagEffect) -> Summary
    ensures { result ≡ Rattle.certificate.specs.Summaries.reaching write code flags }
{
    Summary {
        write,
        code,
        flags,
        ..PLAIN
    }
}

// A summary of control alone.
fn controlling(flags: FlagEffect, control: Control, flow: Flow) -> Summary
    ensures { result ≡ Rattle.certificate.specs.Summaries.controlling flags control flow }
{
    Summary {
        flags,
        control,
        flow,
        ..PLAIN
    }
}

// What no accepted program has.
pub fn forbidden() -> Summary
    ensures { result ≡ Rattle.certificate.specs.Summaries.forbidden }
{
    controlling(FlagEffect::Kept, Control::Nothing, Flow::Forbidden)
}

// A number is no destination.
fn into(d: Operand, s: Summary) -> Summary
    ensures { result ≡ Rattle.certificate.specs.Summaries.into d s }
{
    match d {
        Operand::Register(_) | Operand::Indirect(_, _) => s,
        Operand::Immediate(_) => forbidden(),
    }
}

// AND with a number gives at most that number.
fn binary_value(op: Alu, s: Operand) -> NewValue
    ensures { result ≡ binary_value op s }
{
    match (op, s) {
        (Alu::And, Operand::Immediate(greatest)) => NewValue::Within(Range { least: 0, greatest }),
        _ => NewValue::Unknown,
    }
}

// As before where no flag is named, else g.
fn flag_effect(names: FlagSet, g: FlagEffect) -> FlagEffect
    ensures { result ≡ flag_effect names g }
{
    if names.0 == 0 { FlagEffect::Kept } else { g }
}

// `CP cell,#k` (A6H) leaves a compare.
fn binary_flags(op: Alu, d: Operand, s: Operand) -> FlagEffect
    ensures { result ≡ binary_flags op d s }
{
    match (op, d, s) {
        (Alu::Cp, Operand::Register(a), Operand::Immediate(k)) => FlagEffect::Compared(a, k),
        _ => FlagEffect::Changed,
    }
}

// CP, TM and TCM read both operands and store nothing.
fn binary_summary(stored: bool, op: Alu, d: Operand, s: Operand, names: FlagSet) -> Summary
    ensures { result ≡ binary_summary stored op d s names }
{
    if stored {
        let w = write_to(d, binary_value(op, s));
        let f = flag_effect(names, FlagEffect::Changed);
        return moving(w, Access::Nothing, reading(s), f, StackEffect::Same);
    }
    let g = flag_effect(names, binary_flags(op, d, s));
    moving(Write::Nothing, reading(d), reading(s), g, StackEffect::Same)
}

fn modify_value(op: Unary) -> NewValue
    ensures { result ≡ modify_value op }
{
    match op {
        Unary::Dec => NewValue::OneLess,
        Unary::Inc => NewValue::OneMore,
        Unary::Clr => NewValue::Number(0),
        Unary::Rlc | Unary::Com | Unary::Rl | Unary::Rrc | Unary::Sra | Unary::Rr => {
            NewValue::Unknown
        }
    }
}

fn modify_summary(op: Unary, d: Operand, g: FlagEffect) -> Summary
    ensures { result ≡ Rattle.certificate.specs.Summaries.into d (Rattle.certificate.specs.Summaries.moving (write_to d (modify_value op)) Access.Nothing Access.Nothing g Same) }
{
    let w = write_to(d, modify_value(op));
    into(
        d,
        moving(w, Access::Nothing, Access::Nothing, g, StackEffect::Same),
    )
}

// LD of a register with a number; of SP: the stack pointer is loaded.
fn load_number(a: RegAddr, n: u8, g: FlagEffect) -> Summary
    ensures { result ≡ load_summary (Operand.Register a) (Operand.Immediate n) g }
{
    if a.0 == base::SP {
        return moving(
            Write::Nothing,
            Access::Nothing,
            Access::Nothing,
            g,
            StackEffect::Load(n),
        );
    }
    moving(
        Write::Register(a, NewValue::Number(n)),
        Access::Nothing,
        Access::Nothing,
        g,
        StackEffect::Same,
    )
}

// LD that moves a byte.
fn load_from(w: Write, s: Access, g: FlagEffect) -> Summary
    ensures { result ≡ Rattle.certificate.specs.Summaries.moving w Access.Nothing s g Same }
{
    moving(w, Access::Nothing, s, g, StackEffect::Same)
}

fn load_summary(d: Operand, s: Operand, g: FlagEffect) -> Summary
    ensures { result ≡ load_summary d s g }
{
    match (d, s) {
        (Operand::Register(a), Operand::Immediate(n)) => load_number(a, n, g),
        (Operand::Register(a), Operand::Register(b)) => load_from(
            Write::Register(a, NewValue::CopyOf(b)),
            Access::Register(b),
            g,
        ),
        (Operand::Register(a), Operand::Indirect(p, x)) => load_from(
            Write::Register(a, NewValue::Unknown),
            Access::Pointed(p, x),
            g,
        ),
        (Operand::Indirect(q, y), _) => load_from(Write::Pointed(q, y), reading(s), g),
        (Operand::Immediate(_), _) => forbidden(),
    }
}

// The offset of 8 bits is signed.
fn short_access(p: RegAddr, x: u8) -> CodeAccess
    ensures { result ≡ code_access (CodeAddress.Short p x) }
{
    if x < 128 {
        return CodeAccess::Pair(p, u16::from(x), 0);
    }
    CodeAccess::Pair(p, 0, 256 - u16::from(x))
}

fn code_access(c: CodeAddress) -> CodeAccess
    ensures { result ≡ code_access c }
{
    match c {
        CodeAddress::Direct(a) => CodeAccess::Direct(a),
        CodeAddress::Short(p, x) => short_access(p, x),
        CodeAddress::Long(p, x) => CodeAccess::Pair(p, x, 0),
    }
}

fn switching(on: bool) -> Control
    ensures { result ≡ Rattle.certificate.specs.Summaries.switching on }
{
    if on {
        Control::Enable
    } else {
        Control::Disable
    }
}

fn push_summary(s: Operand, g: FlagEffect) -> Summary
    ensures { result ≡ Rattle.certificate.specs.Summaries.moving Write.Nothing Access.Nothing (Rattle.certificate.specs.Summaries.reading s) g Push }
{
    moving(
        Write::Nothing,
        Access::Nothing,
        reading(s),
        g,
        StackEffect::Push,
    )
}

fn pop_summary(d: Operand, g: FlagEffect) -> Summary
    ensures { result ≡ Rattle.certificate.specs.Summaries.into d (Rattle.certificate.specs.Summaries.moving (write_to d Unknown) Access.Nothing Access.Nothing g Pop) }
{
    let w = write_to(d, NewValue::Unknown);
    into(
        d,
        moving(w, Access::Nothing, Access::Nothing, g, StackEffect::Pop),
    )
}

fn operation_summary(op: Alu, d: Operand, s: Operand, names: FlagSet) -> Summary
    ensures { result ≡ Rattle.certificate.specs.Summaries.into d (binary_summary (stores op) op d s names) }
{
    into(d, binary_summary(alu::stores(op), op, d, s, names))
}

// LDC: register d gets a byte of those that can be loaded from there.
fn load_code(d: RegAddr, from: CodeAccess, loaded: Range, g: FlagEffect) -> Summary
    ensures { result ≡ Rattle.certificate.specs.Summaries.reaching (Write.Register d (Within loaded)) from g }
{
    reaching(Write::Register(d, NewValue::Within(loaded)), from, g)
}

// The effect summary of an action and the flags that it names; load gives the range of the bytes that LDC, LDCI and LDCD can load.
#[tactic(auto, unfolding(certificate::specs::Summaries::summary_of))]
pub fn summary_of<F: Fn(CodeAccess) -> Range>(load: F, action: Action, names: FlagSet) -> Summary
    requires { F.IsAlwaysCallable load }
    ensures { (l : _) → ((c : _) (r : _) → F.post load c r → r ≡ l c) → result ≡ summary_of l action names }
{
    let g = flag_effect(names, FlagEffect::Changed);
    match action {
        Action::Binary(op, d, s) => operation_summary(op, d, s, names),
        Action::Modify(op, d) => modify_summary(op, d, g),
        Action::Load(d, s) => load_summary(d, s, g),
        Action::Push(s) => push_summary(s, g),
        Action::Pop(d) => pop_summary(d, g),
        Action::LoadCode(d, c) => {
            let from = code_access(c);
            load_code(d, from, load(from), g)
        }
        Action::LoadCodeStep(d, p, _) => {
            let from = CodeAccess::Pair(p, 0, 0);
            reaching(Write::RegisterAndPair(d, load(from), p), from, g)
        }
        Action::Jump(cc, to) => controlling(g, Control::Nothing, Flow::Step(cc, to)),
        Action::Call(to) => controlling(g, Control::Nothing, Flow::Call(to)),
        Action::Return => controlling(g, Control::Nothing, Flow::Return),
        Action::InterruptReturn => controlling(g, Control::Nothing, Flow::InterruptReturn),
        Action::Interrupts(on) => controlling(g, switching(on), PLAIN.flow),
        Action::Idle => controlling(g, Control::Wait, PLAIN.flow),
        Action::Carry(_) | Action::Nop => controlling(g, Control::Nothing, PLAIN.flow),
        Action::External | Action::JumpPair(_) | Action::CallPair(_) | Action::Stop => forbidden(),
    }
}

// The same, where LDC, LDCI and LDCD load what the claims of an entry let them reach.
pub fn summary_at_entry(image: &[u8], n: &EntryAt, action: Action, names: FlagSet) -> Summary
    ensures { result ≡ summary_of (load_range (said_by n.now.certificate) image.now n.now.address.0) action names }
{
    summary_of(|c| code_range::load_range(image, n, c), action, names)
}
