// A whole program.
ghost use Rattle.std.specs.Prelude.{◌≡◌, ◌^◌, ◌≤◌, IfOk};
ghost use Rattle.semantics.specs.Programs.{nothing};
ghost use Rattle.reference.specs.CellsOf.{cells_of};
ghost use Rattle.reference.specs.Interpreting.{ProgramStands, Interprets};

use crate::array::Array;
use crate::fault::Stop;
use crate::state::State;
use crate::task::Task;
use std::alloc::{AllocError, Global};

// What a program showed, array after array as bytes, and how it ended.
#[derive(Drop)]
pub struct Outcome {
    pub shown: Vec<u8>,
    pub end: Result<(), Stop>,
}

// As many names as there may be, with nothing.
fn empty_names(heap: Global) -> Result<Vec<Option<Array>>, AllocError>
    ensures { IfOk result (λ v. cells_of v ≡ nothing 64) }
{
    let mut names = Vec::new(heap);
    names.resize_with(64, || None)?;
    Ok(names)
}

// Runs the program whose steps the words are. Where memory is wanting, what is shown is a beginning of what the
// program shows.
pub fn interpret(heap: Global, words: &[u32], inputs: &[u8], places: u64) -> Outcome
    requires stands { ProgramStands words.now }
    requires small { places ≤ 2 ^ 26 }
    ensures { Interprets words.now inputs.now places result }
{
    let shown = Vec::new(heap);
    // Stays: an outcome says what was shown beside how the run ended, so there is no `Result` for a `?` to leave with.
    let Ok(names) = empty_names(heap) else {
        return Outcome {
            shown,
            end: Err(Stop::Memory),
        };
    };
    let mut state = State { names, shown };
    let task = Task {
        heap,
        words,
        inputs,
        places,
    };
    let end = task.run_lines(0, &mut state).map(|_| ());
    let State {
        names: _names,
        shown,
    } = state;
    Outcome { shown, end }
}
