// A program's run as a command: what is read and printed no contract can say.
use crate::fault::Stop;
use crate::interpret::Outcome;
use crate::refused::Refused;
use crate::texts::run_text;
use anyhow::anyhow;
use encoding::inputs::whole_end;
use writer::console::{
    explain_refused, print_ended, print_refused, print_shown, read_file, read_files, read_options,
};

fn refuse(rt: &HostRuntime, text: &[u8], refused: Refused) -> anyhow::Result<()> {
    match refused {
        Refused::Text(refusal) => {
            let place = refusal.place();
            print_refused(rt, refusal.number(), place)?;
            explain_refused(rt, text, place)?;
            Err(anyhow!("the text is no program that can be run"))
        }
        Refused::Input(k) => {
            print_refused(rt, 9, k)?;
            Err(anyhow!("an input is cut short or has too many axes"))
        }
        Refused::Places => {
            print_refused(rt, 10, 1)?;
            Err(anyhow!("places are from 1 to 67108864"))
        }
    }
}

// What fits the room is printed; a show that does not ends the run with 10.
fn show(rt: &HostRuntime, outcome: &Outcome, room: usize) -> anyhow::Result<()> {
    let shown = outcome.shown.as_slice();
    if shown.len() > room {
        let fits = whole_end(&shown[0..room]);
        if fits <= room {
            print_shown(rt, &shown[0..fits])?;
        }
        print_ended(rt, 10)?;
        return Err(anyhow!("there is no room for what is shown"));
    }
    print_shown(rt, shown)?;
    match outcome.end {
        Ok(()) => Ok(()),
        Err(Stop::Fault(fault)) => {
            print_ended(rt, u32::from(fault))?;
            Err(anyhow!("the run ended early"))
        }
        Err(Stop::Memory) => Err(anyhow!("there is no memory left")),
    }
}

// Runs the program that the command line names, and prints what it shows.
pub fn serve(rt: &HostRuntime, usage: &str) -> anyhow::Result<()> {
    let Some(options) = read_options(rt)? else {
        return Err(anyhow!("{usage}"));
    };
    let text = read_file(rt, options.program.as_str())?;
    let inputs = read_files(rt, &options.inputs)?;
    match run_text(
        rt.alloc(),
        text.as_slice(),
        inputs.as_slice(),
        options.places,
    ) {
        Ok(outcome) => show(rt, &outcome, options.shown),
        Err(refused) => refuse(rt, text.as_slice(), refused),
    }
}
