// Laws of the format. The function here computes nothing: its contract is a theorem.
ghost use Rattle.encoding.specs.ReadBack.{ReadBack};

// What was written is read back as itself: arrays written one after another are whole inputs, and they are
// those arrays, number by number.
pub fn read_back_stands() -> u8
    ensures { ReadBack }
{
    0
}
