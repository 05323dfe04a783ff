// A slice along one axis: `many` places from `from` on, forward or backward by steps. The program, the reference and
// the views all say it so.
#[derive(Clone, Copy, PartialEq, Eq)]
pub struct Slice {
    pub from: u32,
    pub backward: bool,
    pub step: u32,
    pub many: u32,
}
