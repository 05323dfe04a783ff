// Where the numbers of an operand are: in the block that the operation works on, or where they lie one after another
// with no NaN among them, in words of the number area or in bytes of an input, from one on.
#[derive(Clone, Copy)]
pub enum Operand {
    Own,
    Words(usize),
    Bytes(usize),
}
