// What a program has come to: what its names hold, and the bytes of what it has shown.
use crate::array::Array;

#[derive(Drop)]
pub struct State {
    pub names: Vec<Option<Array>>,
    pub shown: Vec<u8>,
}
