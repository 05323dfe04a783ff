// Theorems about texts and the automaton, each the contract of a small function.
ghost use Rattle.grammar.specs.TextLaws.{OneProgram, TakesTexts, TakenAreTexts, StuckWhere, CountsMarks, OneVerdict, AnswersVerdict, HasText, ShortTexts, TakenWithin, TakenOnlyWithin};
ghost use Rattle.grammar.specs.TextExamples.{TextExamples};

// A text is one program at most.
pub fn one_program_stands() -> u8
    ensures { OneProgram }
{
    0
}

// The automaton takes just the texts of programs, with their steps.
pub fn takes_texts_stands() -> u8
    ensures { TakesTexts }
{
    0
}

// What the automaton takes is some program's text.
pub fn taken_are_texts_stands() -> u8
    ensures { TakenAreTexts }
{
    0
}

// The automaton is stuck just where no program goes on so.
pub fn stuck_where_stands() -> u8
    ensures { StuckWhere }
{
    0
}

// The automaton counts the marks and levels of every program that is written so.
pub fn counts_marks_stands() -> u8
    ensures { CountsMarks }
{
    0
}

// A text has one verdict.
pub fn one_verdict_stands() -> u8
    ensures { OneVerdict }
{
    0
}

// The automaton's answer is the verdict.
pub fn answers_verdict_stands() -> u8
    ensures { AnswersVerdict }
{
    0
}

// Every program that can be said has a text.
pub fn has_text_stands() -> u8
    ensures { HasText }
{
    0
}

// A text has at most 35 bytes a mark.
pub fn short_texts_stands() -> u8
    ensures { ShortTexts }
{
    0
}

// Every text of a program within the limits is taken.
pub fn taken_within_stands() -> u8
    ensures { TakenWithin }
{
    0
}

// Only texts of programs within the limits are taken.
pub fn taken_only_within_stands() -> u8
    ensures { TakenOnlyWithin }
{
    0
}

// The worked examples come out as written.
pub fn text_examples_stands() -> u8
    ensures { TextExamples }
{
    0
}
