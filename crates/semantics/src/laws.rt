// Laws of the meaning. A function here computes nothing: its contract is a theorem.
pub mod examples;
pub mod orders;
pub mod parts;
pub mod places;
pub mod runs;
pub mod values;
