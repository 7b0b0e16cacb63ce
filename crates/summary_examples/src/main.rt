// Prints what the effect summaries of a few instructions store, where ranges of this program's own say what can be loaded from program memory.
#![tactic(auto)]

use action::{Action, CodeAddress, Operand};
use base::{RegAddr, RomAddr};
use certificate::{CodeAccess, NewValue, Range, Summary, Write};
use isa::NO_FLAGS;
use std::io;

// A range for each kind of address: two values, and as many more as the caller says.
fn loaded(more: u8, from: CodeAccess) -> Range {
    let least = match from {
        CodeAccess::Nothing => 10,
        CodeAccess::Direct(_) => 20,
        CodeAccess::Pair(_, _, 0) => 30,
        CodeAccess::Pair(_, _, _) => 40,
    };
    Range {
        least,
        greatest: (least + 1).saturating_add(more),
    }
}

fn print_stored(rt: &impl Print, summary: Summary) -> io::Result<()> {
    match summary.write {
        Write::Register(d, NewValue::Within(q)) => {
            println!(rt; "register {} gets {} to {}", d.0, q.least, q.greatest)
        }
        Write::RegisterAndPair(d, q, p) => {
            println!(rt;
                "register {} gets {} to {}, and pair {} is stepped",
                d.0, q.least, q.greatest, p.0
            )
        }
        _ => println!(rt; "no range is stored"),
    }
}

fn main(rt: HostRuntime) -> io::Result<()> {
    let actions = [
        Action::LoadCode(RegAddr(4), CodeAddress::Direct(RomAddr(0x0700))),
        Action::LoadCode(RegAddr(5), CodeAddress::Short(RegAddr(2), 1)),
        Action::LoadCode(RegAddr(6), CodeAddress::Short(RegAddr(2), 255)),
        Action::LoadCodeStep(RegAddr(7), RegAddr(2), true),
        Action::Load(Operand::Register(RegAddr(8)), Operand::Immediate(9)),
    ];
    for more in [0, 100] {
        for action in actions {
            print_stored(
                &rt,
                summary::summary_of(|from| loaded(more, from), action, NO_FLAGS),
            )?;
        }
    }
    Ok(())
}
