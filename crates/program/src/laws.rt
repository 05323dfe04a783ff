// What holds of all steps, each law as the contract of a function.
ghost use Rattle.program.specs.StepLaws.{WordsBack, OneExpression, OneProgram, AsManySteps, EndsFound, ListsFound};
ghost use Rattle.program.specs.Sayable.{SayableFits, DeepTakesSteps};

// Words give back the step and the place that they were written for.
pub fn words_back_stands() -> u8
    ensures { WordsBack }
{
    0
}

// Steps are one expression at most.
pub fn one_expression_stands() -> u8
    ensures { OneExpression }
{
    0
}

// Steps are one program at most.
pub fn one_program_stands() -> u8
    ensures { OneProgram }
{
    0
}

// A program has as many steps as its text has marks.
pub fn as_many_steps_stands() -> u8
    ensures { AsManySteps }
{
    0
}

// What is behind an expression, and behind the lines of an `again`, is found.
pub fn ends_found_stands() -> u8
    ensures { EndsFound }
{
    0
}

// The items and slices before an operand are found, and no more.
pub fn lists_found_stands() -> u8
    ensures { ListsFound }
{
    0
}

// The steps of a program that a text can say fit their words.
pub fn sayable_fits_stands() -> u8
    ensures { SayableFits }
{
    0
}

// Each `again` that is deeper takes two steps.
pub fn deep_takes_steps_stands() -> u8
    ensures { DeepTakesSteps }
{
    0
}
