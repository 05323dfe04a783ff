// Where writing has come to: the node of the next step, and the index behind what was written.
#[derive(Clone, Copy)]
pub(crate) struct Reached {
    pub node: usize,
    pub at: usize,
}
