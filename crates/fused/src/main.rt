// fused [--places N] [--input FILE].. [--shown BYTES] [--time] PROGRAM: runs a program over the arrays of its
// input files, in memory that is set aside before it starts.
#![tactic(auto)]

use anyhow::anyhow;
use report::report;
use runtime::texts::run_text;
use std::alloc::AllocError;
use std::process::ExitCode;
use std::time::Instant;
use writer::console::{Options, read_file, read_files, read_options};

mod report;

const USAGE: &str = "fused [--places N] [--input FILE].. [--shown BYTES] [--time] PROGRAM";

// What is lent to a run: 16 words of steps for each of the 2,048 marks that a text has at most, a word of work for
// each place and 8,192 more, and room for what is shown.
#[derive(Drop)]
struct Lent {
    steps: Vec<u32>,
    work: Vec<u64>,
    room: Vec<u8>,
}

fn lend(rt: &HostRuntime, options: &Options) -> Result<Lent, AllocError> {
    let heap = rt.alloc();
    // places that there cannot be are refused by the run
    let words = if options.places <= 1 << 26 {
        options.places as usize + 8192
    } else {
        0
    };
    Ok(Lent {
        steps: vec![in heap; 0u32; 32_768]?,
        work: vec![in heap; 0u64; words]?,
        room: vec![in heap; 0u8; options.shown]?,
    })
}

// Runs the program that the options name; what is wrong has been said where it did not run to its end.
fn serve(rt: &HostRuntime) -> anyhow::Result<ExitCode> {
    let Some(options) = read_options(rt)? else {
        return Err(anyhow!("{USAGE}"));
    };
    let text = read_file(rt, options.program.as_str())?;
    let inputs = read_files(rt, &options.inputs)?;
    let Ok(mut lent) = lend(rt, &options) else {
        return Err(anyhow!("there is not as much memory as --places and --shown ask for"));
    };
    let start = Instant::now(rt)?;
    let answer = run_text(
        text.as_slice(),
        inputs.as_slice(),
        options.places,
        lent.steps.as_mut_slice(),
        lent.work.as_mut_slice(),
        lent.room.as_mut_slice(),
    );
    if options.time {
        let took = start.elapsed(rt)?.as_nanos();
        eprintln!(rt; "the run took {took} ns")?;
    }
    report(
        rt,
        text.as_slice(),
        lent.steps.as_slice(),
        lent.room.as_slice(),
        answer,
    )
}

fn main(rt: HostRuntime) -> anyhow::Result<ExitCode> {
    serve(&rt)
}
