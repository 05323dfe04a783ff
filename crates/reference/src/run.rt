// The run of a program: its lines one after the other, none after a fault.
ghost use Rattle.std.specs.Prelude.{◌≡◌, ℕ, List};
ghost use Rattle.program.specs.Standing.{Runs};
ghost use Rattle.program.specs.Words.{At};
ghost use Rattle.reference.specs.Running.{SmallNames};
ghost use Rattle.reference.specs.Lines.{LinesRun, LineRuns, plain};

use crate::fault::Stop;
use crate::state::State;
use crate::task::Task;
use program::step::Step;
use program::words::{find_end, step_at};

impl Task<'_> {
    // One line that is no `again`, whose step stands at `node`; gives the node behind it.
    fn run_line(&self, node: usize, step: Step, state: &mut State) -> Result<usize, Stop>
        requires runs { Runs self.now.words.now node }
        requires at { At self.now.words.now node step }
        requires plain { plain step }
        requires fits { SmallNames state.old.names }
        ensures fits { SmallNames state.new.names }
        ensures lines { LineRuns self.now.words.now self.now.inputs.now self.now.places node state.old state.new result }
    {
        let behind = node + 1;
        match step {
            Step::Let(name) => self.run_let(behind, name, state),
            Step::Put(name) => self.run_put(behind, name, state),
            Step::Show => self.run_show(behind, state),
            _ => unreachable(),
        }
    }

    // The lines from `node` on; gives the node of the `End` behind them, or the one past the last step.
    pub fn run_lines(&self, node: usize, state: &mut State) -> Result<usize, Stop>
        requires runs { Runs self.now.words.now node }
        requires fits { SmallNames state.old.names }
        ensures fits { SmallNames state.new.names }
        ensures lines { LinesRun self.now.words.now self.now.inputs.now self.now.places node state.old state.new result }
    {
        let mut at = node;
        while let Some(step) = step_at(self.words, at) {
            match step {
                Step::End => return Ok(at),
                Step::Again(count) => {
                    let Some(behind) = find_end(self.words, at + 1) else {
                        return unreachable();
                    };
                    for i in 0..count {
                        let _ = self.run_lines(at + 1, state)?;
                    }
                    at = behind;
                }
                _ => at = self.run_line(at, step, state)?,
            }
        }
        Ok(at)
    }
}
