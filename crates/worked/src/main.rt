// The worked examples of the language, run: what each shows, and how it ends.
#![tactic(auto)]

use anyhow::anyhow;
use reference::fault::Stop;
use reference::texts::run_text;
use writer::console::{print_ended, print_shown};

fn run(rt: &HostRuntime, name: &str, text: &str, places: u64) -> anyhow::Result<()> {
    println!(rt; "{name}")?;
    let Ok(outcome) = run_text(rt.alloc(), text.as_bytes(), &[], places) else {
        return Err(anyhow!("the text is refused"));
    };
    print_shown(rt, outcome.shown.as_slice())?;
    match outcome.end {
        Ok(()) => Ok(()),
        Err(Stop::Fault(fault)) => {
            print_ended(rt, u32::from(fault))?;
            Ok(())
        }
        Err(Stop::Memory) => Err(anyhow!("there is no memory left")),
    }
}

fn run_all(rt: &HostRuntime) -> anyhow::Result<()> {
    run(
        rt,
        "A",
        "let a = shape [2, 3](count 6)\nshow fold add 0(a)\nshow fold add 1(a)",
        1000,
    )?;
    run(rt, "B", "show add(shape [2, 1](count 2), count 3)", 13)?;
    run(
        rt,
        "B, one place less",
        "show add(shape [2, 1](count 2), count 3)",
        12,
    )?;
    run(
        rt,
        "C",
        "let a = count 6\nput a [5:-2:3] = count 3\nshow a",
        1000,
    )?;
    run(
        rt,
        "D",
        "let a = join 0(join 0(shape [1](#3fb999999999999a), shape [1](#3fc999999999999a)), shape [1](#3fd3333333333333))\nshow fold add 0(a)\nshow fold add 0(part [2:-1:3](a))",
        1000,
    )?;
    run(
        rt,
        "E",
        "let a = count 4\nlet b = a\nput a [0:1:2] = #4022000000000000\nshow b\nshow a",
        1000,
    )?;
    run(rt, "F", "show add(count 2, count 3)", 1000)?;
    run(
        rt,
        "G",
        "let a = #3ff0000000000000\nagain 5\nlet a = mul(a, #4000000000000000)\nend\nshow a",
        1000,
    )?;
    run(
        rt,
        "H",
        "show rows(shape [3, 2](count 6), sub(#4000000000000000, count 3))",
        25,
    )?;
    run(
        rt,
        "H, one place less",
        "show rows(shape [3, 2](count 6), sub(#4000000000000000, count 3))",
        24,
    )?;
    run(
        rt,
        "I",
        "show fold least 0(part [0:1:0](count 3))\nshow #3ff0000000000000\nshow z\nshow #4000000000000000",
        1000,
    )?;
    Ok(())
}

fn main(rt: HostRuntime) -> anyhow::Result<()> {
    run_all(&rt)
}
