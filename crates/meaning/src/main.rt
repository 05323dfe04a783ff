// meaning [--places N] [--input FILE].. [--shown BYTES] PROGRAM: does each line of a program by itself with new arrays.
#![tactic(auto)]

use reference::serving::serve;

const USAGE: &str = "meaning [--places N] [--input FILE].. [--shown BYTES] PROGRAM";

fn main(rt: HostRuntime) -> anyhow::Result<()> {
    serve(&rt, USAGE)
}
