// Views: an array that looks at numbers that lie somewhere already, by a shape, strides and a start.
#![tactic(auto)]

pub mod broadcast;
pub mod copying;
pub mod laws;
pub mod lent;
pub mod place;
pub mod reshape;
pub mod shift;
pub mod slice;
pub mod strides;
pub mod transpose;
pub mod view;
pub mod whole;
