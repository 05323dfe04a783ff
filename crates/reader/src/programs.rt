// Programs read from texts.
ghost use Rattle.std.specs.Prelude.{◌≡◌, ◌*◌, ◌≤◌, length, take};
ghost use Rattle.grammar.specs.Automaton.{answer_to};
ghost use Rattle.reader.specs.Reading.{verdict_of, result_of, Written, Leaves};

use crate::judging::Flaw;
use crate::judging::reading::read_text;
use crate::refusal::Refusal;
use program::step::Step;
use program::words::put_step;

// Stores the first steps and their places, from the first word on.
pub fn write_steps(words: &mut [u32], steps: &[Step], places: &[u32], n: usize)
    requires steps_long { n ≤ length steps.now }
    requires places_long { n ≤ length places.now }
    requires room { 5 * n ≤ length words.old }
    ensures { Written words.old words.new n (take n steps.now) (take n places.now) }
{
    // Stays: with places under zip, it stays open which items come at k.
    for (k, step) in steps[..n].iter().enumerate() {
        let _ = put_step(words, k, *step, places[k]);
    }
}

// Judges a text, and writes nothing that is lent.
pub fn judge(text: &[u8]) -> Result<usize, Flaw>
    ensures { result ≡ verdict_of (answer_to text.now) }
{
    let mut steps = [Step::End; 2048];
    let mut places = [0; 2048];
    read_text(text, &mut steps, &mut places)
}

// Reads a program into words, 16 for each step, of which five are used; answers how many steps there are. Where it
// refuses, nothing has changed.
pub fn read_program(text: &[u8], words: &mut [u32]) -> Result<usize, Refusal>
    ensures is { result ≡ result_of (answer_to text.now) (length words.old) }
    ensures leaves { Leaves text.now words.old words.new result }
{
    let mut steps = [Step::End; 2048];
    let mut places = [0; 2048];
    let n = read_text(text, &mut steps, &mut places)?;
    if words.len() < 16 * n {
        return Err(Refusal::ShortWords);
    }
    write_steps(words, &steps, &places, n);
    Ok(n)
}
