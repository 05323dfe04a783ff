// What a tree takes: the node behind it, and how many blocks besides its own.
#[derive(Clone, Copy)]
pub struct Cost {
    pub next: usize,
    pub blocks: usize,
}
