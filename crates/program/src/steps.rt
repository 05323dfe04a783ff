// The steps from a node on, one after another.
ghost use Rattle.program.specs.Steps.{steps_left, Gives};

use crate::step::Step;
use crate::words::step_at;

// `node` is that of the next step.
#[derive(Clone, Drop)]
pub struct Steps<'a> {
    pub words: &'a [u32],
    pub node: usize,
}

impl Iterator for Steps<'_> {
    ghost use Rattle.std.specs.Iterator.{item_count};

    type Item = Step;

    ghost next_gives = { Gives };

    ghost remaining = { item_count steps_left };

    fn next(&mut self) -> Option<Step> {
        let step = step_at(self.words, self.node)?;
        self.node += 1;
        Some(step)
    }
}
