// A program's text, from its steps. Names are written in the order of their numbers, each line with its end.
mod exprs;
mod heads;
mod lines;
mod reached;
mod room;
mod steps;

ghost use Rattle.std.specs.Prelude.{◌≡◌, ℕ, ◌^◌, ◌<◌, [], length};
ghost use Rattle.semantics.specs.Programs.{Program};
ghost use Rattle.program.specs.Spelling.{spell_program};
ghost use Rattle.program.specs.Words.{steps_in};
ghost use Rattle.writer.specs.Writes.{IsProgram, WritesProgram};

use lines::write_lines;

// Writes the text of the program that the words are, and gives its length; what is behind the text in the room is left.
// None, with nothing written, where the room is too short.
pub fn write_program(words: &[u32], room: &mut [u8]) -> Option<usize>
    requires few { length words.now < 2 ^ 40 }
    requires stands { IsProgram words.now }
    ensures { (p : Program ℕ) → steps_in words.now ≡ spell_program p [] → WritesProgram p room.old room.new result }
{
    let len = write_lines(words, &mut []);
    if len > room.len() {
        return None;
    }
    write_lines(words, room);
    Some(len)
}
