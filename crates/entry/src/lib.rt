// A machine, a state without its registers, what a step leaves, and the interrupt entry: which requests act, when an entry is due, and what it
// does, on registers in place. The functions are for the crates `step` and `machine`.
#![tactic(auto)]

ghost use Rattle.std.specs.Prelude.{◌≡◌, ◌*◌, ◌/◌, false};
ghost use Rattle.semantics.specs.Step.{valid_machine, acting_requests, entry_due, enter_of};
ghost use Rattle.semantics.specs.Setup.{setup_of};
ghost use Rattle.semantics.specs.Stops.{stop_number, next_of};
ghost use Rattle.entry.specs.InPlace.{state_with, core_of, core_after, ended, ended_of, finished};

use base::RomAddr;
use chip::Registers;
use semantics::{Configuration, Mode, Next, State, Stop};

// What is the same in every step of a run: the configuration, and the image in ROM.
#[derive(Clone, Copy)]
pub struct Machine<'a> {
    pub configuration: Configuration,
    pub image: &'a [u8],
}

impl Machine<'_> {
    // Whether an entry's cycles are at most `base::GREATEST_ENTRY_COST`, and the image is of the part's length.
    pub fn is_valid(&self) -> bool
        ensures { result ≡ valid_machine (setup_of self.now.configuration) self.now.image.now }
    {
        base::is_entry_cost(self.configuration.entry_cost)
            && base::is_image_of(self.configuration.profile, self.image.len())
    }
}

// The state without the registers.
#[derive(Clone, Copy, Debug, PartialEq, Eq)]
pub struct Core {
    pub pc: RomAddr,
    pub mode: Mode,
    pub cycles: u32,
}

impl Core {
    // The state of registers and a core.
    pub fn with_registers(self, regs: Registers) -> State
        ensures { result ≡ state_with regs self }
    {
        State {
            regs,
            pc: self.pc,
            mode: self.mode,
            cycles: self.cycles,
        }
    }
}

impl From<State> for Core {
    ghost from_gives = { λ state core. core ≡ core_of state };

    fn from(state: State) -> Core {
        Core {
            pc: state.pc,
            mode: state.mode,
            cycles: state.cycles,
        }
    }
}

// What a step leaves beside the registers; where it stops, the registers before it are to be put back. Beside that, whether an instruction began
// and completed, and the cycles that elapse for the timers. No `Result`: all of it is told beside a refusal too (clauses of `step::step_in_place`).
#[derive(Clone, Copy, Debug, PartialEq, Eq)]
pub struct Ended {
    pub core: Core,
    pub stop: Option<Stop>,
    pub retired: bool,
    pub elapsed: u8,
}

// The requests of byte 0 that act.
#[tactic(auto, unfolding(semantics::specs::Step::acting_requests))]
pub fn acting_requests(mode: Mode, b: u8) -> u8
    ensures { result ≡ acting_requests mode b }
{
    match mode {
        Mode::Running | Mode::Idle => b,
        Mode::Stopped => b / 4 % 4 * 4,
    }
}

// Whether an interrupt entry follows the requests.
#[tactic(auto, unfolding(semantics::specs::Step::entry_due))]
pub fn entry_due(regs: &Registers, mode: Mode) -> bool
    ensures { result ≡ entry_due regs.now mode }
{
    let enabled = interrupts::interrupts_enabled(regs);
    match mode {
        Mode::Running | Mode::Idle => enabled & interrupts::pending_any(regs),
        Mode::Stopped => enabled & interrupts::pending_edge(regs),
    }
}

// A refused step.
pub fn refuse(s: Core, stop: Stop) -> Ended
    ensures { ended_of result ≡ ended s (stop_number stop) false 0 }
{
    Ended {
        core: s,
        stop: Some(stop),
        retired: false,
        elapsed: 0,
    }
}

// Where a step comes to, at a cost.
fn core_after(s: Core, pc: RomAddr, mode: Mode, cost: u8) -> Core
    ensures { result ≡ core_after s pc mode cost }
{
    Core {
        pc,
        mode,
        cycles: s.cycles.wrapping_add(u32::from(cost)),
    }
}

// A waiting step costs nothing.
pub fn wait(s: Core, elapsed: u8) -> Ended
    ensures { ended_of result ≡ ended (core_after s s.pc s.mode 0) 0 false elapsed }
{
    Ended {
        core: core_after(s, s.pc, s.mode, 0),
        stop: None,
        retired: false,
        elapsed,
    }
}

// What an instruction (retired) or an entry (not retired) leaves, at a cost.
#[tactic(auto, unfolding(crate::specs::InPlace::finished))]
pub fn finish(s: Core, next: Next, retired: bool, cost: u8) -> Ended
    ensures { ended_of result ≡ finished s (next_of next) retired cost }
{
    match next.stop {
        None => Ended {
            core: core_after(s, next.pc, next.mode, cost),
            stop: None,
            retired,
            elapsed: cost,
        },
        Some(stop) => refuse(s, stop),
    }
}

// An interrupt entry: the program counter and FLAGS are pushed, SYM.2 becomes 0, the vector is loaded. It costs what the configuration says.
#[tactic(auto, unfolding(semantics::specs::Step::enter_of))]
pub fn enter(machine: &Machine, s: Core, regs: &mut Registers) -> Ended
    ensures regs { regs.new ≡ (enter_of machine.now.image.now regs.old s.pc).regs }
    ensures ended { ended_of result ≡ finished s (enter_of machine.now.image.now regs.old s.pc).next false (setup_of machine.now.configuration).entry_cost }
{
    let address = stack::push_address(regs, s.pc);
    let kept_flags = regs[base::FLAGS_INDEX] / 16 * 16;
    let flags = stack::push(regs, kept_flags);
    interrupts::set_interrupts(regs, false);
    let vector = RomAddr(base::word(
        base::byte_at(machine.image, 0),
        base::byte_at(machine.image, 1),
    ));
    finish(
        s,
        operands::goes_on(address & flags, vector),
        false,
        machine.configuration.entry_cost,
    )
}
