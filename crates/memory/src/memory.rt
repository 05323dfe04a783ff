// What names hold. A buffer has no entry of its own: its holders are the views that look into it. Words of the
// number area from `top` on are free; `held` counts the places of all names' arrays, `loose` those of views
// that show fewer places than their buffer has.
use views::view::View;

#[derive(Clone, Copy)]
pub struct Memory {
    pub names: [Option<View>; 64],
    pub top: usize,
    pub held: u64,
    pub loose: u64,
}
