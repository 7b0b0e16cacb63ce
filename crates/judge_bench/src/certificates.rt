// Checks of a certificate.
use base::{IMAGE_4K, LONG_CERTIFICATE_LENGTH, Profile};
use certificate::Verdict;
use std::io;
use test_support::put;

// The entry of 0127H, the first of the groups.
const GROUPS: usize = 14 * 0x127;

const CELLS: usize = 0xE000;

// A HEX text into a slice.
fn load(bytes: &mut [u8], text: &[u8]) {
    let _ = hex_text::read_text(text, bytes);
}

// A part so many times, one behind the other. The place is carried: with `step_by` its end would have to be told.
fn put_times(bytes: &mut [u8], at: usize, part: &[u8], times: usize) {
    let mut next = at;
    for _ in 0..times {
        put(bytes, next, part);
        next = next.wrapping_add(part.len());
    }
}

// Main and service. LD SP,#C0H; CALL 0120H; JR to CALL. IRET. Entries of 0100H, 0103H, 0106H and 0110H, two routines, and the stack, A0H to BFH.
fn put_main(image: &mut [u8; IMAGE_4K], cert: &mut [u8; LONG_CERTIFICATE_LENGTH]) {
    load(
        image,
        b":020000000110ED\n\
          :08010000E6D9C0F601208BFBDB\n\
          :01011000BF2F\n\
          :00000001FF",
    );
    load(
        cert,
        b":0E0E000001FF00000000FF0000FF0000FF00E7\n\
          :0E0E2A00010000000000FF0000FF0000FF00BC\n\
          :0E0E5400010000000000FF0000FF0000FF0092\n\
          :0E0EE0000200000A0000FF0000FF0000FF00FB\n\
          :0CE3060001000102000001100200000AEA\n\
          :02E48000A0C03A\n\
          :00000001FF",
    );
}

// Routine 3 around its groups. CLR R2; CLR R4; CP R4,#FEH. RET. Entries of 0120H, 0122H, 0124H and 0CDFH, the cells R2, R3 and R4, of class 1 and
// writer limit 63, and the routine.
fn put_routine(image: &mut [u8; IMAGE_4K], cert: &mut [u8; LONG_CERTIFICATE_LENGTH]) {
    load(
        image,
        b":07012000B0C2B0C4A6C4FE8A\n\
          :010CDF00AF65\n\
          :00000001FF",
    );
    load(
        cert,
        b":0E0FC00003001C6D0000FF0000FF0000FF009A\n\
          :0E0FDC0003001C690000C2009FFF0000FF0020\n\
          :0E0FF80003001B660101C400FFC2009FFF0042\n\
          :0EB43200030000080000FF0000FF0000FF0004\n\
          :09E24600013F00013F00013F000F\n\
          :06E31200012001001C6D5A\n\
          :00000001FF",
    );
}

// 500 groups of LD R3,@R2; LD @R2,R3; JR UGT,+0, whose two edges go on alike. In the entries R4 is claimed 0 to 255 and compared with 254, R2 is
// claimed 0 to 9FH. Table 1 is 00H to 9FH, of class 1 and writer limit 63.
fn put_groups(image: &mut [u8; IMAGE_4K], cert: &mut [u8; LONG_CERTIFICATE_LENGTH]) {
    put_times(image, 0x127, b"\xC7\x32\xD7\x23\xBB\x00", 500);
    put_times(
        cert,
        GROUPS,
        b"\x03\x00\x00\x00\x01\x01\xC4\x00\xFF\xC2\x00\x9F\xC4\xFE\0\0\0\0\0\0\0\0\0\0\0\0\0\0",
        1500,
    );
    put_times(cert, CELLS, b"\x01\x3F\x01", 160);
}

fn put_bound(cert: &mut [u8; LONG_CERTIFICATE_LENGTH], k: usize, n: u16) {
    put(cert, GROUPS + 2 + 28 * (k % 1500), &n.to_be_bytes());
}

// The bounds in the groups: their instructions cost 4, 4 and 6, RET behind them 8.
fn put_bounds(cert: &mut [u8; LONG_CERTIFICATE_LENGTH]) {
    for k in 0..1500u16 {
        put_bound(cert, usize::from(k), 8 + 14 * (500 - k / 3) - 4 * (k % 3));
    }
}

// JP, where the full program has CALL. CLR R2; 1,267 times LDC R4,@RR2 and NOP; JP to CLR. In their entries R2 is claimed 0 to 0FH and its low half, R3,
// is not, so that each LDC reaches all of ROM; R4 is claimed 0 to 255. Entries of 0120H and 0FFBH, and the cells R2 and R4, of class 1 and writer limit 1.
fn put_loads(image: &mut [u8; IMAGE_4K], cert: &mut [u8; LONG_CERTIFICATE_LENGTH]) {
    load(
        image,
        b":010103008D6E\n\
          :02012000B0C26B\n\
          :030FFB008D012045\n\
          :00000001FF",
    );
    put_times(image, 0x122, b"\xC3\x42\xFF", 1267);
    load(
        cert,
        b":0E0FC000010000000000FF0000FF0000FF0025\n\
          :0EDFBA00010000000000FF0000FF0000FF005B\n\
          :09E24600010100000000010100CB\n\
          :00000001FF",
    );
    put_times(
        cert,
        14 * 0x122,
        b"\x01\0\0\0\0\0\xC2\x00\x0F\xC4\x00\xFF\xFF\0\0\0\0\0\0\0\0\0\0\0\0\0\0\0\
          \x01\0\0\0\0\0\xC2\x00\x0F\xC4\x00\xFF\xFF\0",
        1267,
    );
}

// JR to itself, where the full program has CALL.
fn put_loop(image: &mut [u8; IMAGE_4K]) {
    put(image, 0x103, b"\x8B\xFE");
}

fn check_times(
    image: &[u8; IMAGE_4K],
    cert: &[u8; LONG_CERTIFICATE_LENGTH],
    count: u64,
) -> Verdict {
    let mut verdict = checker::check(Profile::Rom4K, image, cert);
    for _ in 1..count {
        verdict = checker::check(Profile::Rom4K, image, cert);
    }
    verdict
}

fn tell(rt: &impl Print, v: Verdict) -> io::Result<()> {
    match v {
        Verdict::Accepted => println!(rt; " accepted"),
        Verdict::Refused(n, a) => println!(rt; " refused {n} {:04x}", a.0),
    }
}

fn count_of(what: u64) -> u64 {
    match what {
        1 => 100,
        2 => 10000,
        4 => 1000,
        _ => 1000000,
    }
}

// A match, and no table of functions: the parts take different arguments.
fn fill(what: u64, image: &mut [u8; IMAGE_4K], cert: &mut [u8; LONG_CERTIFICATE_LENGTH]) {
    if what != 3 {
        put_main(image, cert);
    }
    match what {
        1 => {
            put_routine(image, cert);
            put_groups(image, cert);
            put_bounds(cert);
        }
        2 => put_loop(image),
        4 => put_loads(image, cert),
        _ => {}
    }
}

// 1 is a full certificate of 1,508 entries, checked 100 times, 2 one of main and service alone, 10,000 times, 3 one of zeros, a million times,
// 4 a full one of 2,540 entries, of which 1,267 are of an LDC that reaches all of ROM, 1,000 times.
pub fn work(rt: &impl Print, what: u64) -> io::Result<()> {
    let mut image = [255u8; IMAGE_4K];
    let mut cert = [0u8; LONG_CERTIFICATE_LENGTH];
    fill(what, &mut image, &mut cert);
    tell(rt, check_times(&image, &cert, count_of(what)))
}
