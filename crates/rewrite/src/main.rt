// rewrite PROGRAM: prints a program's text anew.
#![tactic(auto)]

use anyhow::anyhow;
use std::io::Write;
use writer::console::{explain_refused, print_refused, read_file, read_options};
use writer::rewrite_text;

fn run(rt: &HostRuntime) -> anyhow::Result<()> {
    let Some(options) = read_options(rt)? else {
        return Err(anyhow!("rewrite PROGRAM"));
    };
    let text = read_file(rt, options.program.as_str())?;
    // no text that is written is longer
    let mut room = [0; 131_072];
    match rewrite_text(text.as_slice(), &mut room) {
        Ok(Some(len)) => {
            if len <= room.len() {
                rt.stdout().write_all(&room[0..len])?;
            }
            Ok(())
        }
        Ok(None) => Err(anyhow!("there is no room for the text")),
        Err(refusal) => {
            let place = refusal.place();
            print_refused(rt, refusal.number(), place)?;
            explain_refused(rt, text.as_slice(), place)?;
            Err(anyhow!("the text is no program that can be run"))
        }
    }
}

fn main(rt: HostRuntime) -> anyhow::Result<()> {
    run(&rt)
}
