// Runs `bridgecheck` with an argument and its errors on standard output: the usage, and no judgement of the accepted pair that stands there.
#![tactic(auto)]

use std::io;

fn main(rt: HostRuntime) -> io::Result<()> {
    command::bridgecheck(&rt, &mut rt.stdout(), &mut rt.stdout())
}
