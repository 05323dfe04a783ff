// The plan of an expression: what it comes to is not computed yet, only its shape, how many places are counted
// on its way, and every fault, in the order of the operations: operands before their operation, left before right.
ghost use Rattle.std.specs.Prelude.{◌≡◌, ◌^◌, ◌≤◌, None, slice_index_or};
ghost use Rattle.encoding.specs.ShapeOf.{shape_of};
ghost use Rattle.program.specs.Standing.{Stands};
ghost use Rattle.program.specs.Words.{steps_in};
ghost use Rattle.runtime.specs.Built.{AllBuilt};
ghost use Rattle.runtime.specs.Planning.{PlannedAt, Counts, NamePlan, InputPlan};

use crate::fault::{Fault, Stop};
use encoding::broadcast::broadcast;
use encoding::inputs::find_input;
use encoding::shape::Shape;
use program::step::Step;
use program::words::step_at;
use views::view::View;

// The shape of what an expression comes to, the places counted, and the node behind the expression.
#[derive(Clone, Copy)]
pub struct Planned {
    pub shape: Shape,
    pub count: u64,
    pub next: usize,
}

// One more array, after `before` places of the `left` that there are.
fn count_array(
    node: usize,
    next: usize,
    shape: Shape,
    before: u64,
    left: u64,
) -> Result<Planned, Stop>
    requires small { left ≤ 2 ^ 26 }
    requires within { before ≤ left }
    ensures { Counts (shape_of shape) left before next result }
{
    let size = shape.size();
    if size > left - before {
        return Err(Fault::Places.at(node));
    }
    Ok(Planned {
        shape,
        count: before + size,
        next,
    })
}

// The array that a name has, if there is such a name.
pub(crate) fn view_of(names: &[Option<View>; 64], name: u32) -> Option<View>
    ensures { result ≡ slice_index_or names.now name None }
{
    *names.get(name as usize)?
}

// A name's array: using it counts as a copy.
fn plan_name(
    names: &[Option<View>; 64],
    name: u32,
    node: usize,
    next: usize,
    left: u64,
) -> Result<Planned, Stop>
    requires small { left ≤ 2 ^ 26 }
    ensures { NamePlan names.now name left next result }
{
    let view = view_of(names, name).ok_or(Fault::Nothing.at(node))?;
    count_array(node, next, view.shape, 0, left)
}

// An input's array.
fn plan_input(
    inputs: &[u8],
    input: u32,
    node: usize,
    next: usize,
    left: u64,
) -> Result<Planned, Stop>
    requires small { left ≤ 2 ^ 26 }
    ensures { InputPlan inputs.now input left next result }
{
    let head = find_input(inputs, input as usize).ok_or(Fault::Nothing.at(node))?;
    count_array(node, next, head.shape, 0, left)
}

// The expression at `node`, with the places that are left.
pub fn plan(
    words: &[u32],
    node: usize,
    names: &[Option<View>; 64],
    inputs: &[u8],
    left: u64,
) -> Result<Planned, Stop>
    requires stands { Stands words.now node }
    requires built { AllBuilt (steps_in words.now) }
    requires small { left ≤ 2 ^ 26 }
    ensures { PlannedAt words.now inputs.now names.now node left result }
{
    let Some(step) = step_at(words, node) else {
        return unreachable();
    };
    let behind = node + 1;
    match step {
        Step::Name(k) => plan_name(names, k, node, behind, left),
        Step::Input(k) => plan_input(inputs, k, node, behind, left),
        Step::Constant(_) => {
            let shape = Shape {
                rank: 0,
                lens: [0; 8],
            };
            count_array(node, behind, shape, 0, left)
        }
        Step::Count(m) => {
            let shape = Shape {
                rank: 1,
                lens: [m, 0, 0, 0, 0, 0, 0, 0],
            };
            count_array(node, behind, shape, 0, left)
        }
        Step::Each(_) => {
            let a = plan(words, behind, names, inputs, left)?;
            count_array(node, a.next, a.shape, a.count, left)
        }
        Step::Both(_) => {
            let a = plan(words, behind, names, inputs, left)?;
            let b = plan(words, a.next, names, inputs, left - a.count)?;
            let Some(shape) = broadcast(&a.shape, &b.shape) else {
                return Err(Fault::Shapes(a.shape, b.shape).at(node));
            };
            count_array(node, b.next, shape, a.count + b.count, left)
        }
        _ => unreachable(),
    }
}
