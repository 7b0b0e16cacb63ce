// Compares `machine::run_covered` and `machine::run` with the cases of the file `runs.bin`, and prints what differs. A case is a configuration; edits of an
// image of FFH, as long as its part has it; a state; records; and what a run over them leaves from an empty map. From the marks that it leaves, and from all marks, it must add none.
// Images and maps of other lengths come first.
#![tactic(auto)]

use base::{IMAGE_2K, IMAGE_4K, Profile, RECORD_LENGTH};
use coverage::{Map, WORDS};
use machine_states::{
    CONFIGURATION_LENGTH, STATE_LENGTH, configuration_of, image_for, is_configuration,
    is_supported_state, same_state, state_of,
};
use semantics::{Configuration, Ran, State};
use std::io;
use std::io::Read;
use test_support::{Case, Counts, word_at};

// Where the parts of what a case gives behind its image begin. The last is the count of the records, which follow it.
const START: usize = 0;

const RECORDS: usize = START + STATE_LENGTH;

const GIVEN_LENGTH: usize = RECORDS + 2;

// The most bytes of a schedule: the count of its records is 2 bytes.
const SCHEDULE_LENGTH: usize = 65535 * RECORD_LENGTH;

// Where the parts of what a case expects begin. The last is the count of the marked addresses, which follow it.
const NUMBER: usize = 0;

const STEPS: usize = 1;

const STATE: usize = 3;

const MARKED: usize = STATE + STATE_LENGTH;

const EXPECTED_LENGTH: usize = MARKED + 2;

type ConfigurationBytes = [u8; CONFIGURATION_LENGTH];

type Image = [u8; IMAGE_4K];

type Given = [u8; GIVEN_LENGTH];

type Schedule = [u8; SCHEDULE_LENGTH];

type Expected = [u8; EXPECTED_LENGTH];

// What of a run agrees with what is expected.
#[derive(Clone, Copy)]
struct Agreement {
    number: bool,
    steps: bool,
    state: bool,
    map: bool,
}

fn agreement_of(ran: Ran, map: &Map, expected: &Expected, marks: &Map) -> Agreement {
    let state = ran.state;
    let bytes = &expected[..];
    Agreement {
        number: ran.stop.map_or(0, u8::from) == expected[NUMBER],
        steps: ran.steps == usize::from(word_at(bytes, STEPS)),
        state: same_state(state, &bytes[STATE..MARKED]),
        map: map == marks,
    }
}

impl Agreement {
    fn is_full(self) -> bool {
        self.number && self.steps && self.state && self.map
    }
}

// A run, and what it is expected to leave from an empty map.
#[derive(Clone, Copy)]
struct Run<'a> {
    configuration: Configuration,
    image: &'a [u8],
    state: State,
    records: &'a [u8],
    expected: &'a Expected,
    marks: &'a Map,
}

impl Run<'_> {
    // With no map.
    fn plain(&self) -> Agreement {
        let ran = machine::run(self.configuration, self.image, self.state, self.records);
        agreement_of(ran, self.marks, self.expected, self.marks)
    }

    // With a map that is expected to hold these marks behind the run.
    fn covered(&self, mut map: Map, marks: &Map) -> Agreement {
        let ran = machine::run_covered(
            self.configuration,
            self.image,
            self.state,
            self.records,
            &mut map,
        );
        agreement_of(ran, &map, self.expected, marks)
    }

    fn agreements(&self) -> Agreements {
        let all: Map = [u64::MAX; WORDS];
        Agreements {
            plain: self.plain(),
            empty: self.covered([0; WORDS], self.marks),
            again: self.covered(*self.marks, self.marks),
            full: self.covered(all, &all),
        }
    }
}

// Of the runs of a case: with no map; and from no marks, from those of the case, and from all.
#[derive(Clone, Copy)]
struct Agreements {
    plain: Agreement,
    empty: Agreement,
    again: Agreement,
    full: Agreement,
}

impl Agreements {
    fn are_full(self) -> bool {
        self.plain.is_full() && self.empty.is_full() && self.again.is_full() && self.full.is_full()
    }
}

// Prints a name unless it holds.
fn tell_unless(rt: &impl Print, holds: bool, name: &str) -> io::Result<()> {
    if !holds {
        print!(rt; "{name}")?;
    }
    Ok(())
}

fn tell_run(rt: &impl Print, name: &str, a: Agreement) -> io::Result<()> {
    tell_unless(rt, a.is_full(), name)?;
    tell_unless(rt, a.number, " number")?;
    tell_unless(rt, a.steps, " steps")?;
    tell_unless(rt, a.state, " state")?;
    tell_unless(rt, a.map, " map")
}

fn tell(rt: &impl Print, whole: bool, supported: bool, runs: Agreements) -> io::Result<()> {
    print!(rt; " differs")?;
    tell_unless(rt, whole, "; not whole")?;
    tell_unless(rt, supported, "; not supported")?;
    tell_run(rt, "; without a map:", runs.plain)?;
    tell_run(rt, "; from no marks:", runs.empty)?;
    tell_run(rt, "; from its marks:", runs.again)?;
    tell_run(rt, "; from all marks:", runs.full)?;
    println!(rt; "")
}

// Whether the machine has the part and the states of a case.
fn is_supported(configuration: &ConfigurationBytes, given: &Given, expected: &Expected) -> bool {
    let start = &given[..];
    let end = &expected[..];
    is_configuration(configuration)
        && is_supported_state(&start[START..RECORDS])
        && is_supported_state(&end[STATE..MARKED])
}

// Reads the next records of a file, so many; whether the file has them all, and the slice has room for them.
fn read_records(file: &mut impl Read, count: u16, schedule: &mut [u8]) -> bool {
    let length = usize::from(count) * RECORD_LENGTH;
    match schedule.get_mut(..length) {
        Some(part) => test_support::read_full(file, part) == length,
        None => false,
    }
}

// The first records of a schedule, so many.
fn first_records(schedule: &Schedule, count: u16) -> &[u8] {
    let all = &schedule[..];
    &all[..usize::from(count) * RECORD_LENGTH]
}

// A function of its own, so that no proof looks at the zeros.
fn empty_schedule() -> Schedule {
    [0; SCHEDULE_LENGTH]
}

// Reads the rest of a case, and compares; one that is cut off differs.
fn compare(
    rt: &impl Print,
    file: &mut impl Read,
    configuration: &ConfigurationBytes,
    counts: Counts,
) -> io::Result<Case> {
    let mut image: Image = [255; IMAGE_4K];
    let mut given: Given = [0; GIVEN_LENGTH];
    let mut schedule = empty_schedule();
    let mut expected: Expected = [0; EXPECTED_LENGTH];
    let mut marks: Map = [0; WORDS];
    let edited = test_support::read_edits(file, &mut image);
    let started = test_support::read_full(file, &mut given) == GIVEN_LENGTH;
    let count = word_at(&given, RECORDS);
    let scheduled = read_records(file, count, &mut schedule);
    let ended = test_support::read_full(file, &mut expected) == EXPECTED_LENGTH;
    let marked = map_cases::read_marks(file, word_at(&expected, MARKED), &mut marks);
    let whole = edited & started & scheduled & ended & marked.whole & marked.distinct;
    let supported = is_supported(configuration, &given, &expected);
    let configured = configuration_of(configuration);
    let run = Run {
        configuration: configured,
        image: image_for(configured, &image),
        state: state_of(&given[START..RECORDS]),
        records: first_records(&schedule, count),
        expected: &expected,
        marks: &marks,
    };
    let agreements = run.agreements();
    if whole && supported && agreements.are_full() {
        return Ok(Case::Same);
    }
    if counts.tells(rt)? {
        tell(rt, whole, supported, agreements)?;
    }
    Ok(Case::Differs)
}

fn run_case(rt: &impl Print, file: &mut impl Read, counts: Counts) -> io::Result<Option<Case>> {
    let mut configuration: ConfigurationBytes = [0; CONFIGURATION_LENGTH];
    if test_support::read_full(file, &mut configuration) == 0 {
        return Ok(None);
    }
    Ok(Some(compare(rt, file, &configuration, counts)?))
}

// Prints the number, the steps and the word of 0100H that one NOP leaves with a map of so many words, at most one too many.
fn try_words(rt: &impl Print, words: usize) -> io::Result<()> {
    let image: Image = [255; IMAGE_4K];
    let mut map = [0u64; WORDS + 1];
    let state = machine::reset();
    let configuration = Configuration {
        profile: Profile::Rom4K,
        entry_cost: 0,
    };
    if words <= WORDS + 1 {
        let ran = machine::run_covered(
            configuration,
            &image,
            state,
            &[0; RECORD_LENGTH],
            &mut map[0..words],
        );
        println!(rt;
            "{words} words: {}, steps {}, marks {}",
            ran.stop.map_or(0, u8::from),
            ran.steps,
            map[4]
        )?;
    }
    Ok(())
}

// Prints the numbers of a step and of a run on a part with an image of so many bytes, at most 4096.
fn try_image(rt: &impl Print, name: &str, profile: Profile, length: usize) -> io::Result<()> {
    let image: Image = [255; IMAGE_4K];
    let configuration = Configuration {
        profile,
        entry_cost: 0,
    };
    let rec = [0u8; RECORD_LENGTH];
    if length <= IMAGE_4K {
        let part = &image[0..length];
        let stepped = machine::step(configuration, part, machine::reset(), &rec);
        let ran = machine::run(configuration, part, machine::reset(), &[]);
        println!(rt;
            "{name} part, image of {length}: step {}, empty run {}",
            stepped.err().map_or(0, u8::from),
            ran.stop.map_or(0, u8::from)
        )?;
    }
    Ok(())
}

fn main(rt: HostRuntime) -> io::Result<()> {
    for (name, profile, length) in [
        ("4K", Profile::Rom4K, IMAGE_4K),
        ("4K", Profile::Rom4K, IMAGE_2K),
        ("2K", Profile::Rom2K, IMAGE_2K),
        ("2K", Profile::Rom2K, IMAGE_4K),
        ("2K", Profile::Rom2K, IMAGE_2K - 1),
    ] {
        try_image(&rt, name, profile, length)?;
    }
    for words in [0, WORDS - 1, WORDS, WORDS + 1] {
        try_words(&rt, words)?;
    }
    test_support::run_cases(&rt, b"runs.bin", |file, counts| run_case(&rt, file, counts))
}
