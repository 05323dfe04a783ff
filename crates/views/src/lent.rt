// What views look into: the words of the number area, and the bytes of the inputs.
#[derive(Clone, Copy)]
pub struct Lent<'a> {
    pub area: &'a [u64],
    pub bytes: &'a [u8],
}
