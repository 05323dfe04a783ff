// A program's text, read and written anew.
ghost use Rattle.writer.specs.Rewriting.{Rewrites};

use crate::texts::write_program;
use reader::programs::read_program;
use reader::refusal::Refusal;

// The text of the program that a text is, written into the room; gives its length, or none, with nothing written, where
// the room is too short. What is written is read as the same program.
pub fn rewrite_text(text: &[u8], room: &mut [u8]) -> Result<Option<usize>, Refusal>
    ensures { Rewrites text.now room.old room.new result }
{
    // 16 words for each of the 2,048 steps that a program has at most
    let mut words = [0; 32_768];
    let steps = read_program(text, &mut words)?;
    Ok(write_program(&words[..5 * steps], room))
}
