// What is still to come in a text, as symbols on a stack: the topmost is what the next byte belongs to.
use semantics::operation::{Binary, Unary};

// The words that begin an expression.
#[derive(Clone, Copy)]
pub enum Head {
    In,
    Count,
    Each(Unary),
    Both(Binary),
    Choose,
    Fold,
    Scan,
    Shape,
    Turn,
    Part,
    Join,
    Rows,
}

// What follows one axis: `fold` or `scan`.
#[derive(Clone, Copy)]
pub enum Along {
    Fold,
    Scan,
}

// The statements that begin with a name.
#[derive(Clone, Copy)]
pub enum Target {
    Let,
    Put,
}

// What stands in brackets: numbers, or parts of axes.
#[derive(Clone, Copy)]
pub enum Bracket {
    Numbers,
    Parts,
}

// What a number is for. Of a part `from:step:many` those that came before are kept.
#[derive(Clone, Copy)]
pub enum Number {
    Input,
    Count,
    Along(Along, Binary),
    Join,
    Again,
    Item,
    From,
    Step(u32, bool),
    Many(u32, bool, u32),
}

#[derive(Clone, Copy)]
pub enum Symbol {
    // lines up to the text's end; lines up to the `end` of an `again`
    Lines,
    Body,
    // just this byte
    Byte(u8),
    // a name behind `let` or `put`, and what follows it up to the line's end
    Target(Target),
    // an expression; one of which a word has begun
    Expr,
    Word,
    // the word of an operation on two numbers, behind `fold` or `scan`
    Binary(Along),
    // a number; one of which digits have come
    Number(Number),
    Digits(Number),
    // so many hexadecimal digits of a constant
    Hex(u8),
    // so many more operands, and the closing parenthesis
    Operands(u8),
    // behind `[`; behind an item; behind `, `
    First(Bracket),
    More(Bracket),
    Item(Bracket),
    // the step of a part, perhaps backward
    Step(u32),
}
