// Prints the names of an image file and a certificate file, what is wrong in them and their judgement, for each case; also the judgement of two
// texts.
#![tactic(auto)]

use base::InvalidArgument;
use report::REPORT_LENGTH;
use std::io;
use std::rt::Files;

// Prints what was written at the front of a buffer.
fn print_written(
    rt: &impl Print,
    written: Result<usize, InvalidArgument>,
    out: &[u8],
) -> io::Result<()> {
    if let Ok(n) = written {
        if n <= out.len() {
            rt.write_all(&out[..n])?;
        }
    }
    Ok(())
}

// An image file and a certificate file.
type Pair = (&'static str, &'static str);

// The two in a folder.
macro_rules! in_folder {
    ($folder:literal) => {
        (
            concat!($folder, "/image.hex"),
            concat!($folder, "/cert.hex"),
        )
    };
}

fn example(rt: &(impl Files + Print), (image_name, certificate_name): Pair) -> io::Result<()> {
    println!(rt; "{image_name} {certificate_name}")?;
    let mut out = [0u8; REPORT_LENGTH];
    let mut errors = io::writer(rt);
    let written = files::judge_files(
        rt,
        image_name.as_bytes(),
        certificate_name.as_bytes(),
        &mut out,
        &mut errors,
    );
    print_written(rt, written, &out)
}

fn examples(rt: &(impl Files + Print), pairs: &[Pair]) -> io::Result<()> {
    for pair in pairs {
        example(rt, *pair)?;
    }
    Ok(())
}

// Images with one fault each, told by its line.
fn faults(rt: &(impl Files + Print), image_names: &[&'static str]) -> io::Result<()> {
    for image_name in image_names {
        example(rt, (image_name, "p_cert.hex"))?;
    }
    Ok(())
}

// Fills a buffer from a file.
fn read_whole(rt: &impl Files, name: &[u8], text: &mut [u8]) -> io::Result<()> {
    let mut file = reading::open(rt, name)?;
    reading::read_full(&mut file, text);
    Ok(())
}

// The same of two texts in memory, which are as long as the files of image P.
fn example_of_texts(rt: &(impl Files + Print)) -> io::Result<()> {
    let mut image = [0u8; 188];
    let mut certificate = [0u8; 952];
    read_whole(rt, b"p_image.hex", &mut image)?;
    read_whole(rt, b"p_cert.hex", &mut certificate)?;
    println!(rt; "two texts")?;
    let mut out = [0u8; REPORT_LENGTH];
    let written = judge_texts::judge_texts(&image, &certificate, &mut out);
    print_written(rt, written, &out)
}

// Too short a buffer: 7.
fn example_of_length(
    rt: &(impl Files + Print),
    image_name: &[u8],
    certificate_name: &[u8],
) -> io::Result<()> {
    let mut out = [0u8; 1142];
    let mut errors = io::writer(rt);
    match files::judge_files(rt, image_name, certificate_name, &mut out, &mut errors) {
        Ok(_) => println!(rt; "written"),
        Err(_) => println!(rt; "7 for a buffer of 1142 bytes"),
    }
}

// The cases of image P.
const P_EXAMPLES: [Pair; 5] = [
    ("p_image.hex", "p_cert.hex"),
    ("ule_image.hex", "p_cert.hex"),
    ("p_image.hex", "bound_363_cert.hex"),
    ("p_image.hex", "floor_bb_cert.hex"),
    ("p_image.hex", "floor_bc_cert.hex"),
];

// Missing, empty, unreadable and cut files.
const ABSENT_EXAMPLES: [Pair; 6] = [
    ("missing.hex", "p_cert.hex"),
    ("p_image.hex", "missing.hex"),
    ("missing.hex", "missing.hex"),
    ("empty.hex", "p_cert.hex"),
    (".", "p_cert.hex"),
    ("no_end_image.hex", "p_cert.hex"),
];

// Refused lines; the image decides.
const REFUSED_EXAMPLES: [Pair; 5] = [
    ("bad_sum_image.hex", "p_cert.hex"),
    ("long_line_image.hex", "p_cert.hex"),
    ("p_image.hex", "past_end_cert.hex"),
    ("bad_sum_image.hex", "past_end_cert.hex"),
    ("no_end_image.hex", "past_end_cert.hex"),
];

// Small letters in the image, in the certificate, in both.
const LETTER_EXAMPLES: [Pair; 3] = [
    ("lower_image.hex", "p_cert.hex"),
    ("p_image.hex", "lower_cert.hex"),
    ("lower_image.hex", "lower_cert.hex"),
];

// Small letters in the end line, and behind it.
const LETTER_FAULTS: [&str; 2] = ["faults/small_end.hex", "faults/small_behind_end.hex"];

// Malformed lines.
const MALFORMED: [&str; 10] = [
    "faults/empty_line.hex",
    "faults/no_colon.hex",
    "faults/control.hex",
    "faults/no_digit.hex",
    "faults/blank_behind.hex",
    "faults/one_short.hex",
    "faults/two_over.hex",
    "faults/cut.hex",
    "faults/end_with_data.hex",
    "faults/end_sum.hex",
];

// Lines longer than any valid one, and input without an end.
const LONG: [&str; 4] = [
    "faults/long_523.hex",
    "faults/long_522_crlf.hex",
    "faults/long_behind_end.hex",
    "/dev/zero",
];

// Well-formed lines that are refused, and missing end lines.
const FIELDS: [&str; 8] = [
    "faults/wide_sum.hex",
    "faults/start_record.hex",
    "faults/overlap.hex",
    "faults/ends_past.hex",
    "faults/far.hex",
    "faults/behind_end.hex",
    "faults/last_data.hex",
    "faults/last_sum.hex",
];

// Other line ends, larger programs.
const OTHER_EXAMPLES: [Pair; 4] = [
    ("crlf_image.hex", "crlf_cert.hex"),
    ("logger_image.hex", "logger_cert.hex"),
    ("overrun_image.hex", "overrun_cert.hex"),
    ("overrun_image.hex", "logger_cert.hex"),
];

// The pointer of a logger comes from a ROM table; the same with one byte of the table too large.
const TABLE_EXAMPLES: [Pair; 2] = [in_folder!("linearised"), in_folder!("linearised_overrun")];

// An interrupt entry takes 20 cycles: the service's bound covers them, and does not.
const ENTRY_COST_EXAMPLES: [Pair; 2] = [in_folder!("entry_cost"), in_folder!("entry_cost_unpaid")];

// The programs of the page "Idioms" of docs/CERTIFICATE.md.
const LOOP_IDIOMS: [Pair; 9] = [
    in_folder!("idioms/loop_down"),
    in_folder!("idioms/loop_down_obvious"),
    in_folder!("idioms/two_pointers"),
    in_folder!("idioms/two_pointers_obvious"),
    in_folder!("idioms/base_index"),
    in_folder!("idioms/base_index_obvious"),
    in_folder!("idioms/one_index"),
    in_folder!("idioms/step_by_two"),
    in_folder!("idioms/step_by_two_obvious"),
];

const NESTED_IDIOMS: [Pair; 7] = [
    in_folder!("idioms/nested_loops"),
    in_folder!("idioms/nested_loops_obvious"),
    in_folder!("idioms/nested_in_main"),
    in_folder!("idioms/outer_in_main"),
    in_folder!("idioms/wait_ready"),
    in_folder!("idioms/wait_ready_obvious"),
    in_folder!("idioms/wait_in_main"),
];

const LIMIT_IDIOMS: [Pair; 8] = [
    in_folder!("idioms/no_interrupts"),
    in_folder!("idioms/no_interrupts_obvious"),
    in_folder!("idioms/limit_register"),
    in_folder!("idioms/limit_register_obvious"),
    in_folder!("idioms/limit_counted_down"),
    in_folder!("idioms/tail_call"),
    in_folder!("idioms/tail_call_obvious"),
    in_folder!("idioms/tail_copy"),
];

fn main(rt: HostRuntime) -> io::Result<()> {
    examples(&rt, &P_EXAMPLES)?;
    examples(&rt, &ABSENT_EXAMPLES)?;
    examples(&rt, &REFUSED_EXAMPLES)?;
    examples(&rt, &LETTER_EXAMPLES)?;
    faults(&rt, &LETTER_FAULTS)?;
    faults(&rt, &MALFORMED)?;
    faults(&rt, &LONG)?;
    faults(&rt, &FIELDS)?;
    examples(&rt, &OTHER_EXAMPLES)?;
    example_of_length(&rt, b"p_image.hex", b"p_cert.hex")?;
    examples(&rt, &TABLE_EXAMPLES)?;
    examples(&rt, &ENTRY_COST_EXAMPLES)?;
    example_of_texts(&rt)?;
    examples(&rt, &LOOP_IDIOMS)?;
    examples(&rt, &NESTED_IDIOMS)?;
    examples(&rt, &LIMIT_IDIOMS)
}
