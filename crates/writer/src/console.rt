// What the programs share: the command line, files, and what is printed. No contract can speak of these; what
// is printed is made by functions that have one.
mod explains;
mod files;
mod options;
mod prints;

pub use explains::{explain_refused, point_at};
pub use files::{read_file, read_files};
pub use options::{Options, read_options};
pub use prints::{print_ended, print_refused, print_shown};
