use reader::judging::Flaw;
use reader::programs::judge;
use std::io;

// The line that has a byte, and how far the byte is from its beginning.
fn line_around(text: &[u8], place: usize) -> (&[u8], usize) {
    let (before, behind) = text.split_at(place.min(text.len()));
    let start = before
        .iter()
        .rposition(|byte| *byte == b'\n')
        .map_or(0, |k| k + 1);
    let rest = behind
        .iter()
        .position(|byte| *byte == b'\n')
        .unwrap_or(behind.len());
    (&text[start..before.len() + rest], before.len() - start)
}

// Whether some program's text begins with the bytes, of which the last stands at `place`.
fn goes_on(bytes: &[u8], place: usize) -> bool {
    match judge(bytes) {
        Ok(_) => true,
        Err(Flaw::NoProgram(i)) => i != place,
        Err(Flaw::TooMuch(_)) => false,
    }
}

// The bytes with which a program could have gone on at `place`, as text.
fn could_stand(rt: &HostRuntime, text: &[u8], place: usize) -> io::Result<String> {
    let mut bytes = Vec::new(rt.alloc());
    for byte in text.iter().take(place) {
        bytes.push(*byte)?;
    }
    let mut list = String::new(rt.alloc());
    for code in 32u8..127 {
        bytes.push(code)?;
        if goes_on(bytes.as_slice(), place) {
            list.push(' ')?;
            list.push(char::from(code))?;
        }
        let _ = bytes.pop();
    }
    bytes.push(b'\n')?;
    if goes_on(bytes.as_slice(), place) {
        list.push_str(" a new line")?;
    }
    Ok(list)
}

// The line that has a byte of a text, with a caret under the byte and words behind it.
pub fn point_at(rt: &HostRuntime, text: &[u8], place: usize, words: &str) -> io::Result<()> {
    let (bytes, column) = line_around(text, place);
    let mut line = String::new(rt.alloc());
    for byte in bytes {
        line.push(if matches!(*byte, 32..127) {
            char::from(*byte)
        } else {
            '?'
        })?;
    }
    eprintln!(rt; "{line}")?;
    eprintln!(rt; "{:column$}^ {words}", "")
}

// The line of a refused text with a caret under the byte, and what could have stood there.
pub fn explain_refused(rt: &HostRuntime, text: &[u8], place: usize) -> io::Result<()> {
    let stands = could_stand(rt, text, place)?;
    point_at(
        rt,
        text,
        place,
        format!(in rt.alloc(); "here could stand:{stands}")?.as_str(),
    )
}
