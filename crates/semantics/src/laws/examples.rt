ghost use Rattle.semantics.specs.Examples.{ExamplesComeOut};

// Worked examples come out as written.
pub fn examples_come_out_stands() -> u8
    ensures { ExamplesComeOut }
{
    0
}
