// Reads image.hex and cert.hex in the folder that it runs in, and prints whether the image is accepted.
#![tactic(auto)]

// The program has no status: `bin/bridgecheck` goes by what was written.
fn main(rt: HostRuntime) {
    let _ = command::bridgecheck(&rt, &mut rt.stdout(), &mut rt.stderr());
}
