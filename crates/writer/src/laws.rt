// What holds of all texts that are written, each law as the contract of a function.
ghost use Rattle.writer.specs.Spellings.{SpellingsAreNames};
ghost use Rattle.writer.specs.WrittenAs.{TextReads};

// The spellings of names are names, the first ones however many, and no two alike.
pub fn spellings_are_names_stands() -> u8
    ensures { SpellingsAreNames }
{
    0
}

// The text of a program is a text of it, of each that can be written with 64 names at most.
pub fn text_reads_stands() -> u8
    ensures { TextReads }
{
    0
}
