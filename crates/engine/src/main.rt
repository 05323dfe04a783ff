// engine [--places N] [--input FILE].. [--shown BYTES] PROGRAM: runs a program over the arrays of its input files.
// It runs on the reference for now: no view, no fused loop.
#![tactic(auto)]

use reference::serving::serve;

const USAGE: &str = "engine [--places N] [--input FILE].. [--shown BYTES] PROGRAM";

fn main(rt: HostRuntime) -> anyhow::Result<()> {
    serve(&rt, USAGE)
}
