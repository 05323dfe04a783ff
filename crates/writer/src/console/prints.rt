use crate::listing::list_array;
use std::io;
use std::io::Write;

// The arrays that lie one after another in `bytes`, as text.
pub fn print_shown(rt: &HostRuntime, bytes: &[u8]) -> io::Result<()> {
    let mut text = Vec::new(rt.alloc());
    let mut at = 0;
    while let Some(next) = list_array(rt.alloc(), &mut text, bytes, at)? {
        rt.stdout().write_all(text.as_slice())?;
        text.clear();
        at = next;
    }
    Ok(())
}

pub fn print_ended(rt: &HostRuntime, fault: u32) -> io::Result<()> {
    println!(rt; "ended {fault}")
}

pub fn print_refused(rt: &HostRuntime, number: u32, place: usize) -> io::Result<()> {
    println!(rt; "refused {number} at {place}")
}
