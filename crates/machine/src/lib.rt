// The machine: reset, one step under a schedule record, and a run over a schedule, with or without a coverage map.
#![tactic(auto)]

ghost use Rattle.std.specs.Prelude.{◌≡◌, ◌/◌, length, true};
ghost use Rattle.semantics.specs.Reset.{reset_state, IsReset};
ghost use Rattle.base.specs.Lengths.{record_length};
ghost use Rattle.semantics.specs.Setup.{setup_of};
ghost use Rattle.semantics.specs.Step.{valid_machine, step_of};
ghost use Rattle.semantics.specs.Run.{ran, run_from, run_of};
ghost use Rattle.semantics.specs.Stops.{stepped_of, ran_of};
ghost use Rattle.base.specs.Choice.{pick};
ghost use Rattle.coverage.specs.Map.{with_mark};
ghost use Rattle.machine.specs.Count.{completed_steps, total_cost, Counted};
ghost use Rattle.machine.specs.Reached.{Marks, reached_in, reached, covered_run, covered_map};

use base::{RECORD_LENGTH, RomAddr};
use entry::{Core, Machine};
use semantics::{Configuration, Mode, Ran, State, Stop};

// The state at reset. What a reset leaves open (RAM, SP, the kept bits of FLAGS, F8H and F9H) is 0. It is one of the states that demand 3 speaks of.
#[tactic(auto, using(semantics::specs::ResetLaws::reset_is_reset), unfolding(semantics::specs::Reset::reset_state))]
pub fn reset() -> State
    ensures value { result ≡ reset_state }
    ensures valid { IsReset result }
{
    let core = Core {
        pc: RomAddr(0x100),
        mode: Mode::Running,
        cycles: 0,
    };
    core.with_registers(chip::reset_registers())
}

// One step of a state on an image of the part's length in a configuration, under a record (`RECORD_LENGTH`): the next state, or why it is refused.
#[tactic(auto, using(crate::proofs::Joins::step_right), unfolding(semantics::specs::Step::step_of))]
pub fn step(
    configuration: Configuration,
    image: &[u8],
    state: State,
    rec: &[u8],
) -> Result<State, Stop>
    ensures { stepped_of state result ≡ step_of (setup_of configuration) image.now state rec.now }
{
    let machine = Machine {
        configuration,
        image,
    };
    if !machine.is_valid() {
        return Err(Stop::InvalidArgument);
    }
    let Some(record) = rec.as_array::<RECORD_LENGTH>() else {
        return Err(Stop::InvalidArgument);
    };
    let mut regs = state.regs;
    let r = step::step_in_place(&machine, Core::from(state), &mut regs, record);
    match r.stop {
        None => Ok(r.core.with_registers(regs)),
        Some(stop) => Err(stop),
    }
}

// Marks where an instruction began, if one was completed.
fn mark_retired(map: &mut [u64], pc: RomAddr, retired: bool)
    ensures { map.new ≡ pick retired (with_mark map.old pc.0) map.old }
{
    if retired {
        coverage::mark(map, pc);
    }
}

// The records of a schedule in turn, on a machine. The instructions that they complete are marked in the words that the map has.
fn run_records(machine: &Machine, state: State, schedule: &[u8], map: &mut [u64]) -> Ran
    requires { valid_machine (setup_of machine.now.configuration) machine.now.image.now ≡ true }
    ensures run { ran_of result ≡ run_from (length schedule.now / record_length) (setup_of machine.now.configuration) machine.now.image.now schedule.now 0 state }
    ensures map { Marks map.old map.new (reached_in result.steps (setup_of machine.now.configuration) machine.now.image.now state schedule.now) }
{
    let (records, _) = schedule.as_chunks::<RECORD_LENGTH>();
    let mut regs = state.regs;
    let mut core = Core::from(state);
    for (i, rec) in records.iter().enumerate() {
        let pc = core.pc;
        let r = step::step_in_place(machine, core, &mut regs, rec);
        core = r.core;
        if r.stop.is_some() {
            return Ran {
                state: core.with_registers(regs),
                steps: i,
                stop: r.stop,
            };
        }
        mark_retired(map, pc, r.retired);
    }
    Ran {
        state: core.with_registers(regs),
        steps: records.len(),
        stop: None,
    }
}

// A run that does nothing, since its arguments are invalid.
fn refused(state: State) -> Ran
    ensures { ran_of result ≡ ran state 0 7 }
{
    Ran {
        state,
        steps: 0,
        stop: Some(Stop::InvalidArgument),
    }
}

// A run that marks; refused for a configuration above its limit, an image of another length, and a schedule that is not whole records.
#[tactic(auto, unfolding(semantics::specs::Run::run_of))]
fn run_marking(machine: &Machine, state: State, schedule: &[u8], map: &mut [u64]) -> Ran
    ensures run { ran_of result ≡ run_of (setup_of machine.now.configuration) machine.now.image.now state schedule.now }
    ensures map { Marks map.old map.new (reached (setup_of machine.now.configuration) machine.now.image.now state schedule.now) }
{
    if !machine.is_valid() {
        return refused(state);
    }
    if schedule.len() % RECORD_LENGTH != 0 {
        return refused(state);
    }
    run_records(machine, state, schedule, map)
}

// A run over a schedule of whole records on an image in a configuration: the state after its completed steps, how many they are, and the number
// that ended it, or 0.
pub fn run(configuration: Configuration, image: &[u8], state: State, schedule: &[u8]) -> Ran
    ensures run { ran_of result ≡ run_of (setup_of configuration) image.now state schedule.now }
    ensures counted { Counted (completed_steps (setup_of configuration) image.now state schedule.now) (total_cost (setup_of configuration) image.now state schedule.now) state (ran_of result) }
{
    let machine = Machine {
        configuration,
        image,
    };
    let mut none = [0u64; 1];
    run_marking(&machine, state, schedule, &mut none[..0])
}

// The same run with a lent map (`coverage::WORDS`), which then has its old marks and those of the instructions that the run completed, where they
// began. A map of another length is refused by 7.
#[tactic(auto, unfolding(crate::specs::Reached::covered_run))]
pub fn run_covered(
    configuration: Configuration,
    image: &[u8],
    state: State,
    schedule: &[u8],
    map: &mut [u64],
) -> Ran
    ensures run { ran_of result ≡ covered_run (setup_of configuration) image.now state schedule.now (length map.old) }
    ensures map { map.new ≡ covered_map (setup_of configuration) image.now state schedule.now map.old }
{
    if map.len() != coverage::WORDS {
        return refused(state);
    }
    let machine = Machine {
        configuration,
        image,
    };
    run_marking(&machine, state, schedule, map)
}
