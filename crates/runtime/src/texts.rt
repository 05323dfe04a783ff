// A text over its inputs: judged, then run in lent memory.
ghost use Rattle.std.specs.Prelude.{◌≡◌, ◌+◌, ◌^◌, ◌<◌, ◌≤◌, length, Decides};
ghost use Rattle.runtime.specs.Answering.{Enough, Answers};

use crate::answer::Refusal;
use crate::built::first_unbuilt;
use crate::run::{Ran, run_program};
use encoding::inputs::count_inputs;
use kernels::storing::SCRATCH;
use program::step::Step;
use reader::judging::reading::read_text;
use reader::programs::write_steps;

// Whether there can be so many places, and the lent work is long enough for them.
fn has_places(places: u64, work: usize) -> bool
    ensures { Decides result (Enough places work) }
{
    places > 0 && places <= 1 << 26 && work >= places as usize + 8192
}

// Runs the program that a text is, over inputs that lie one after another, with so many places for numbers. Lent
// are 16 words of steps for each mark of the text, a word of work for each place and 8,192 more, and room for what
// is shown. The text is judged before the inputs, these before the steps, and these before the work.
pub fn run_text(
    text: &[u8],
    inputs: &[u8],
    places: u64,
    steps: &mut [u32],
    work: &mut [u64],
    room: &mut [u8],
) -> Result<Ran, Refusal>
    ensures { Answers text.now inputs.now places steps.old steps.new work.old work.new room.old room.new result }
{
    let mut read = [Step::End; 2048];
    let mut begins = [0; 2048];
    let count = read_text(text, &mut read, &mut begins)?;
    if let Some(k) = first_unbuilt(&read[..count]) {
        return Err(Refusal::NoProgram(begins[k] as usize));
    }
    count_inputs(inputs)?;
    if steps.len() < 16 * count {
        return Err(Refusal::Steps);
    }
    if !has_places(places, work.len()) {
        return Err(Refusal::Work);
    }
    write_steps(steps, &read, &begins, count);
    let mut scratch = [0.0; SCRATCH];
    Ok(run_program(
        &steps[..5 * count],
        &mut work[..places as usize],
        inputs,
        room,
        &mut scratch,
    ))
}
