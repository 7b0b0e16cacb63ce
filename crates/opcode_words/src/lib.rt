// Length and cycles by the first byte, read from one number a row: what a step uses in place of the tables of `isa`, which are copied at each use.
#![tactic(auto)]

ghost use Rattle.std.specs.Prelude.{◌≡◌};
ghost use Rattle.isa.specs.Map.{length_of, cycles_of};
ghost use Rattle.opcode_words.specs.Words.{length_word, cycle_word};

fn length_word(row: u8) -> u64
    ensures { result ≡ length_word row }
{
    match row {
        0 => 0x0132202203332222,
        1 => 0x0132202203332222,
        2 => 0x0132202203332222,
        3 => 0x0132202203332202,
        4 => 0x0132202203332200,
        5 => 0x0132202203332222,
        6 => 0x1132202203332222,
        7 => 0x1132202203332222,
        8 => 0x1132202230000000,
        9 => 0x1132202230000022,
        10 => 0x1132202243332200,
        11 => 0x1132202243332222,
        12 => 0x1132202220002022,
        13 => 0x1132202223002022,
        14 => 0x1132202233332222,
        _ => 0x1132202233320000,
    }
}

fn cycle_word(row: u8) -> u64
    ensures { result ≡ cycle_word row }
{
    match row {
        0 => 0x0484604406666464,
        1 => 0x0484604406666444,
        2 => 0x0484604406666444,
        3 => 0x0484604406666408,
        4 => 0x0484604406666400,
        5 => 0x0484604406666488,
        6 => 0x4484604406666444,
        7 => 0x4484604406666488,
        8 => 0x4484604460000000,
        9 => 0x4484604460000044,
        10 => 0x84846044E6666400,
        11 => 0xA4846044E6666444,
        12 => 0x448460444000A044,
        13 => 0x448460444600A044,
        14 => 0x44846044C666AA44,
        _ => 0x44846044CE6C0000,
    }
}

// The length of an instruction with this first byte, or 0. It and `cycles` stay two: one function over the words would be no shorter.
#[tactic(auto, using(crate::proofs::Packed::length_at))]
pub fn length(first: u8) -> u8
    ensures { result ≡ length_of first }
{
    let k = first % 16 * 4;
    ((length_word(first / 16) >> k) % 16) as u8
}

// Its cycles, or 0.
#[tactic(auto, using(crate::proofs::Packed::cycles_at))]
pub fn cycles(first: u8) -> u8
    ensures { result ≡ cycles_of first }
{
    let k = first % 16 * 4;
    ((cycle_word(first / 16) >> k) % 16) as u8
}
