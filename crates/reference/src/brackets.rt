// The items and slices of brackets, which stand behind the step of their operation and before its operand.
ghost use Rattle.std.specs.Prelude.{◌≡◌, ◌+◌, IfOk};
ghost use Rattle.std.specs.List.{prefix_len};
ghost use Rattle.semantics.specs.Slices.{parts_of};
ghost use Rattle.program.specs.Standing.{steps_from};
ghost use Rattle.reference.specs.Brackets.{bracketed, SkipsBrackets, ReadsItems, ReadsSlices};

use program::step::Step;
use program::steps::Steps;
use semantics::slice::Slice;
use std::alloc::{AllocError, Global};

fn is_bracket(step: Step) -> bool
    ensures { result ≡ bracketed step }
{
    matches!(step, Step::Item(_) | Step::Slice(_))
}

// Behind the items and slices from `node` on, however they are mixed.
pub fn skip_brackets(words: &[u32], node: usize) -> usize
    ensures skips { SkipsBrackets words.now node result }
    ensures all { result ≡ node + prefix_len bracketed (steps_from words.now node) }
{
    let brackets = Steps { words, node }.take_while(|step| is_bracket(*step));
    node + brackets.count()
}

// The items from `node` on.
pub fn read_items(heap: Global, words: &[u32], node: usize) -> Result<Vec<u32>, AllocError>
    ensures { IfOk result (λ v. ReadsItems words.now node v.items) }
{
    let mut list = Vec::new(heap);
    for step in (Steps { words, node }) {
        let Some(item) = step.item() else {
            return Ok(list);
        };
        list.push(item)?;
    }
    Ok(list)
}

// The slices from `node` on.
pub fn read_slices(heap: Global, words: &[u32], node: usize) -> Result<Vec<Slice>, AllocError>
    ensures { IfOk result (λ v. ReadsSlices words.now node (parts_of v.items)) }
{
    let mut list = Vec::new(heap);
    for step in (Steps { words, node }) {
        let Some(slice) = step.slice() else {
            return Ok(list);
        };
        list.push(slice)?;
    }
    Ok(list)
}
