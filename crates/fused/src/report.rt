// What is printed of a run: on standard output what it showed and how it ended, on standard error what a person
// can do where it did not run to its end.
use encoding::shape::Shape;
use program::words::place_at;
use reader::programs::judge;
use runtime::answer::Refusal;
use runtime::fault::{Fault, Stop};
use runtime::run::Ran;
use std::process::ExitCode;
use std::{fmt, io};
use writer::console::{explain_refused, point_at, print_ended, print_refused, print_shown};

// The lengths of a shape, as a program's output has them.
#[derive(Clone, Copy)]
struct Lengths(Shape);

impl fmt::Display for Lengths {
    fn fmt<W: fmt::Write>(&self, f: &mut fmt::Formatter<W>) -> fmt::Result {
        f.write_str("shape")?;
        for len in self.0.lengths() {
            write!(f, " {len}")?;
        }
        Ok(())
    }
}

// What a fault is, in words, and which option helps.
#[derive(Clone, Copy)]
struct Advice(Fault);

impl fmt::Display for Advice {
    fn fmt<W: fmt::Write>(&self, f: &mut fmt::Formatter<W>) -> fmt::Result {
        match self.0 {
            Fault::Shapes(left, right) => {
                let left = Lengths(left);
                let right = Lengths(right);
                write!(f, "{left} and {right} cannot be broadcast together")
            }
            Fault::Places => f.write_str(
                "here the statement needs more places than there are: give more by --places",
            ),
            Fault::Nothing => f.write_str("this name or input has nothing"),
            Fault::Room => f.write_str("there is no room to show this: give more by --shown"),
        }
    }
}

fn explain_stop(rt: &HostRuntime, text: &[u8], steps: &[u32], stop: Stop) -> io::Result<()> {
    let place = place_at(steps, stop.node).map_or(text.len(), |place| place as usize);
    let advice = Advice(stop.fault);
    let words = format!(in rt.alloc(); "{advice}")?;
    point_at(rt, text, place, words.as_str())
}

fn explain(rt: &HostRuntime, text: &[u8], refusal: Refusal) -> io::Result<()> {
    match refusal {
        Refusal::NoProgram(place) => match judge(text) {
            Ok(_) => point_at(rt, text, place, "this is not built yet: `meaning` runs it"),
            Err(_) => explain_refused(rt, text, place),
        },
        Refusal::TooMuch(place) => point_at(
            rt,
            text,
            place,
            "here the text has more than 131072 bytes, 2048 marks or 8 levels",
        ),
        Refusal::Input(k) => eprintln!(rt; "input {k} is cut short or has more than 8 axes"),
        Refusal::Steps => eprintln!(rt; "the lent steps are too short"),
        Refusal::Work => eprintln!(rt; "places are from 1 to 67108864"),
    }
}

// Prints a run, or why there was none; the exit status says whether the program ran to its end.
pub fn report(
    rt: &HostRuntime,
    text: &[u8],
    steps: &[u32],
    room: &[u8],
    answer: Result<Ran, Refusal>,
) -> anyhow::Result<ExitCode> {
    let ran = match answer {
        Ok(ran) => ran,
        Err(refusal) => {
            print_refused(rt, u32::from(u8::from(refusal)), refusal.place())?;
            explain(rt, text, refusal)?;
            return Ok(ExitCode::FAILURE);
        }
    };
    print_shown(rt, room.get(0..ran.shown).unwrap_or(room))?;
    if let Err(stop) = ran.end {
        print_ended(rt, u32::from(u8::from(stop.fault)))?;
        explain_stop(rt, text, steps, stop)?;
        return Ok(ExitCode::FAILURE);
    }
    Ok(ExitCode::SUCCESS)
}
