// A text over its inputs: judged, then run. The text is judged before the inputs, and these before the places.
ghost use Rattle.reference.specs.Answering.{Answers};

use crate::interpret::{Outcome, interpret};
use crate::refused::Refused;
use encoding::inputs::count_inputs;
use reader::programs::read_program;
use std::alloc::Global;

pub fn run_text(heap: Global, text: &[u8], inputs: &[u8], places: u64) -> Result<Outcome, Refused>
    ensures { Answers text.now inputs.now places result }
{
    // 16 words for each of the 2,048 steps that a program has at most
    let mut words = [0; 32_768];
    let steps = read_program(text, &mut words)?;
    count_inputs(inputs)?;
    if places == 0 || places > 1 << 26 {
        return Err(Refused::Places);
    }
    Ok(interpret(heap, &words[0..5 * steps], inputs, places))
}
