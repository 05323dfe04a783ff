// A place, and those behind it along its last axis: the address of the first, how far one is from the next, and
// how many there are.
#[derive(Clone, Copy)]
pub struct Row {
    pub from: usize,
    pub stride: i64,
    pub left: usize,
}
