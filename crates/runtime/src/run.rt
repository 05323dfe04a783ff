// The run of a program: its lines one after the other, none after a fault.
ghost use Rattle.std.specs.Prelude.{◌≡◌, ◌^◌, ◌≤◌, length};
ghost use Rattle.runtime.specs.States.{Runnable};
ghost use Rattle.runtime.specs.declared.run.Ran.{Ran};
ghost use Rattle.runtime.specs.Running.{ProgramStands, RunsAs};

use crate::fault::Stop;
use crate::statements::{run_let, run_show};
use memory::binding::no_names;
use program::step::Step;
use program::words::step_at;

// How a run ended, and the byte behind what it has shown.
#[derive(Clone, Copy)]
pub struct Ran {
    pub shown: usize,
    pub end: Result<(), Stop>,
}

// Runs all lines, up to the first fault; `shown` is then the byte behind what they have shown.
fn run_lines(
    words: &[u32],
    area: &mut [u64],
    inputs: &[u8],
    room: &mut [u8],
    shown: &mut usize,
    scratch: &mut [f64],
) -> Result<(), Stop>
    requires stands { ProgramStands words.now }
    requires runnable { Runnable words.now }
    requires small { length area.old ≤ 2 ^ 26 }
    requires first { shown.old ≡ 0 }
    requires scratch { 4352 ≤ length scratch.old }
    ensures { (ran : Ran) → ran.shown ≡ shown.new → ran.end ≡ result → RunsAs words.now inputs.now (length area.old) room.old room.new ran }
{
    let mut memory = no_names();
    let mut at = 0;
    while let Some(step) = step_at(words, at) {
        match step {
            Step::Let(name) => {
                at = run_let(words, at + 1, name, &mut memory, area, inputs, scratch)?;
            }
            Step::Show => {
                let behind = run_show(words, at + 1, &memory, area, inputs, room, *shown, scratch)?;
                at = behind.next;
                *shown = behind.end;
            }
            _ => return unreachable(),
        }
    }
    Ok(())
}

// Runs the program whose steps the words are, on a number area of one word a place.
pub fn run_program(
    words: &[u32],
    area: &mut [u64],
    inputs: &[u8],
    room: &mut [u8],
    scratch: &mut [f64],
) -> Ran
    requires stands { ProgramStands words.now }
    requires runnable { Runnable words.now }
    requires small { length area.old ≤ 2 ^ 26 }
    requires scratch { 4352 ≤ length scratch.old }
    ensures { RunsAs words.now inputs.now (length area.old) room.old room.new result }
{
    let mut shown = 0;
    let end = run_lines(words, area, inputs, room, &mut shown, scratch);
    Ran { shown, end }
}
