// One step under a schedule record, with its registers in place, in two halves: it acts, and then it settles. The crate `machine` makes steps of
// whole states and runs of it.
#![tactic(auto)]

ghost use Rattle.std.specs.Prelude.{◌≡◌, ℕ, List};
ghost use Rattle.isa.specs.Answer.{decoded};
ghost use Rattle.base.specs.Choice.{pick};
ghost use Rattle.semantics.specs.declared.State.{State};
ghost use Rattle.semantics.specs.Step.{after_decode, instruction_act, mode_act, act_after_requests, acted_of, settled};
ghost use Rattle.semantics.specs.Setup.{setup_of};
ghost use Rattle.entry.specs.InPlace.{state_with, ended_of, acted, rebuilt, stepped};

use base::RomAddr;
use chip::{Inputs, Record, Registers};
use entry::{Core, Ended, Machine};
use isa::{DecodeError, Decoded};
use semantics::{Mode, Stop};

// The instruction that was decoded, on the registers after the requests.
#[tactic(auto, unfolding(semantics::specs::Step::after_decode))]
fn after_decode(
    d: Result<Decoded, DecodeError>,
    image: &[u8],
    s: Core,
    regs: &mut Registers,
    rec: &Inputs,
) -> Ended
    ensures { (saved : List ℕ) → rebuilt saved regs.new (ended_of result) ≡ after_decode (decoded d) image.now (state_with saved s) regs.old rec.now }
{
    match d {
        Ok(found) => {
            let behind = RomAddr(s.pc.0.wrapping_add(u16::from(found.length)));
            let next = execute::execute(
                action::action_of(found.instruction, behind),
                found.names,
                image,
                regs,
                rec,
                behind,
            );
            let first = base::byte_at(image, usize::from(s.pc.0));
            entry::finish(s, next, true, opcode_words::cycles(first))
        }
        Err(error) => entry::refuse(s, Stop::from(error)),
    }
}

// One instruction.
#[tactic(auto, unfolding(semantics::specs::Step::instruction_act))]
fn instruction(image: &[u8], s: Core, regs: &mut Registers, rec: &Inputs) -> Ended
    ensures { (saved : List ℕ) → rebuilt saved regs.new (ended_of result) ≡ instruction_act image.now (state_with saved s) regs.old rec.now }
{
    let decoded = decode::decode(image, usize::from(s.pc.0));
    after_decode(decoded, image, s, regs, rec)
}

// The cycles that elapse in a step that waits in IDLE.
const IDLE_CYCLES: u8 = 4;

// The act of a machine for which no entry is due.
#[tactic(auto, unfolding(semantics::specs::Step::mode_act))]
fn mode_act(mode: Mode, image: &[u8], s: Core, regs: &mut Registers, rec: &Inputs) -> Ended
    ensures { (saved : List ℕ) → rebuilt saved regs.new (ended_of result) ≡ mode_act mode image.now (state_with saved s) regs.old rec.now }
{
    match mode {
        Mode::Running => instruction(image, s, regs, rec),
        Mode::Idle => entry::wait(s, IDLE_CYCLES),
        Mode::Stopped => entry::wait(s, 0),
    }
}

// What follows the requests.
#[tactic(auto, unfolding(semantics::specs::Step::act_after_requests))]
fn after_requests(
    due: bool,
    machine: &Machine,
    s: Core,
    regs: &mut Registers,
    rec: &Inputs,
) -> Ended
    ensures { (saved : List ℕ) → rebuilt saved regs.new (ended_of result) ≡ act_after_requests due (setup_of machine.now.configuration) machine.now.image.now (state_with saved s) regs.old rec.now }
{
    if due {
        entry::enter(machine, s, regs)
    } else {
        mode_act(s.mode, machine.image, s, regs, rec)
    }
}

// Puts the registers back where a step stopped.
fn put_back(regs: &mut Registers, before: Registers, done: bool)
    ensures { regs.new ≡ pick done regs.old before }
{
    if !done {
        *regs = before;
    }
}

// The first half: what the requests, the entry, waiting or the instruction do.
#[tactic(auto, unfolding(semantics::specs::Step::acted_of))]
fn act(machine: &Machine, s: Core, regs: &mut Registers, rec: &Record) -> Ended
    ensures { acted regs.new (ended_of result) ≡ acted_of (setup_of machine.now.configuration) machine.now.image.now (state_with regs.old s) rec.now }
{
    let inputs = chip::inputs(base::grounds(machine.configuration.profile), *rec);
    let before = *regs;
    interrupts::post(regs, entry::acting_requests(s.mode, rec[0]));
    let due = entry::entry_due(regs, s.mode);
    let r = after_requests(due, machine, s, regs, &inputs);
    put_back(regs, before, r.stop.is_none());
    r
}

// The second half: nothing settles.
#[tactic(auto, unfolding(semantics::specs::Step::settled))]
fn settle(regs: &mut Registers, a: Ended) -> Ended
    ensures step { (s : State) → stepped regs.new (ended_of result) ≡ settled s (acted regs.old (ended_of a)) }
    ensures retired { result.retired ≡ a.retired }
    ensures elapsed { result.elapsed ≡ a.elapsed }
{
    a
}

// A step with its registers in place. It also tells whether an instruction began and completed, and the cycles that elapse for the timers.
pub fn step_in_place(machine: &Machine, s: Core, regs: &mut Registers, rec: &Record) -> Ended
    ensures step { stepped regs.new (ended_of result) ≡ settled (state_with regs.old s) (acted_of (setup_of machine.now.configuration) machine.now.image.now (state_with regs.old s) rec.now) }
    ensures retired { result.retired ≡ (acted_of (setup_of machine.now.configuration) machine.now.image.now (state_with regs.old s) rec.now).retired }
    ensures elapsed { result.elapsed ≡ (acted_of (setup_of machine.now.configuration) machine.now.image.now (state_with regs.old s) rec.now).elapsed }
{
    let a = act(machine, s, regs, rec);
    settle(regs, a)
}
