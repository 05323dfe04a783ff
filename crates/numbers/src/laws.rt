// Theorems about the operations, each on the contract of a small function.
ghost use Rattle.numbers.specs.Indices.{Indices};
ghost use Rattle.numbers.specs.Named.{Named};
ghost use Rattle.numbers.specs.Patterns.{OnlyPatterns};

// The patterns for 0, 1, the infinities and the NaN stand for them.
pub fn names_stands() -> u8
    ensures { Named }
{
    0
}

// Every operation gives a pattern of 64 bits, and of the NaNs only the one.
pub fn patterns_stands() -> u8
    ensures { OnlyPatterns }
{
    0
}

// The index of a number is the whole number below 2^32 that it is the same as, if there is one.
pub fn indices_stands() -> u8
    ensures { Indices }
{
    0
}
