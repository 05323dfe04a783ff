use std::{env, io};

// What the command line says.
#[derive(Drop)]
pub struct Options {
    pub places: u64,
    pub shown: usize,
    pub time: bool,
    pub inputs: Vec<String>,
    pub program: String,
}

// What the word before asks for.
#[derive(Clone, Copy)]
enum Expects {
    Any,
    Places,
    Shown,
    Input,
}

// The options of the command line; none where it is not one.
pub fn read_options(rt: &HostRuntime) -> io::Result<Option<Options>> {
    let mut places: u64 = 1 << 22;
    let mut shown: usize = 1 << 24;
    let mut time = false;
    let mut inputs = Vec::new(rt.alloc());
    let mut program = None;
    let mut expects = Expects::Any;
    for word in env::args(rt)?.skip(1) {
        match expects {
            Expects::Places => {
                let Ok(n) = word.as_str().parse::<u64>() else {
                    return Ok(None);
                };
                places = n;
                expects = Expects::Any;
            }
            Expects::Shown => {
                let Ok(n) = word.as_str().parse::<usize>() else {
                    return Ok(None);
                };
                shown = n;
                expects = Expects::Any;
            }
            Expects::Input => {
                inputs.push(word)?;
                expects = Expects::Any;
            }
            Expects::Any => match word.as_str() {
                "--places" => expects = Expects::Places,
                "--shown" => expects = Expects::Shown,
                "--input" => expects = Expects::Input,
                "--time" => time = true,
                _ => {
                    if program.is_some() || word.as_str().starts_with("--") {
                        return Ok(None);
                    }
                    program = Some(word);
                }
            },
        }
    }
    let Expects::Any = expects else {
        return Ok(None);
    };
    let Some(program) = program else {
        return Ok(None);
    };
    Ok(Some(Options {
        places,
        shown,
        time,
        inputs,
        program,
    }))
}
