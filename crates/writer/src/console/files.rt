use std::io::Read;
use std::{fs, io};

// A file's bytes; `-` is standard input.
pub fn read_file(rt: &HostRuntime, path: &str) -> io::Result<Vec<u8>> {
    if path == "-" {
        let mut bytes = Vec::new(rt.alloc());
        rt.stdin().read_to_end(&mut bytes)?;
        return Ok(bytes);
    }
    fs::read(rt, path)
}

// The bytes of several files, one after another.
pub fn read_files(rt: &HostRuntime, paths: &Vec<String>) -> io::Result<Vec<u8>> {
    let mut all = Vec::new(rt.alloc());
    for path in paths.iter() {
        let one = read_file(rt, path.as_str())?;
        all.extend_from_slice(one.as_slice())?;
    }
    Ok(all)
}
