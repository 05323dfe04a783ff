// Statements one by one. An expression has the places that names leave; what it comes to is computed in one pass.
ghost use Rattle.std.specs.Prelude.{◌≡◌, ℕ, ◌+◌, ◌^◌, ◌<◌, ◌≤◌, List, length, IfSome, IfOk};
ghost use Rattle.semantics.specs.Shapes.{size};
ghost use Rattle.semantics.specs.Values.{Expr};
ghost use Rattle.semantics.specs.Programs.{State, value_in, becomes, is_shown};
ghost use Rattle.numbers.specs.Operations.{binary64};
ghost use Rattle.encoding.specs.ShapeOf.{shape_of};
ghost use Rattle.encoding.specs.Format.{inputs_of};
ghost use Rattle.program.specs.declared.step.Step.{Step as Mark};
ghost use Rattle.program.specs.Spelling.{spell};
ghost use Rattle.program.specs.Standing.{steps_from, Stands, Skips};
ghost use Rattle.kernels.specs.Filling.{Ready, Shallow};
ghost use Rattle.runtime.specs.Planning.{sizes};
ghost use Rattle.runtime.specs.States.{Runnable, Stood, Standing};
ghost use Rattle.runtime.specs.Statements.{Keeps, GoodSlots, LetGoes, ShowGoes, ViewOf, NewBound};

use crate::fault::{Fault, Stop};
use crate::output::show_tree;
use crate::plan::{plan, view_of};
use encoding::inputs::find_input;
use encoding::shape::Shape;
use kernels::env::Env;
use kernels::storing::store_with;
use memory::binding::bind;
use memory::memory::Memory;
use memory::reserve::reserve;
use program::step::Step;
use program::words::step_at;
use views::lent::Lent;
use views::view::View;
use views::whole::{of_buffer, of_input};

// Behind a show: the next node, and the byte behind what is shown.
#[derive(Clone, Copy)]
pub struct Shown {
    pub next: usize,
    pub end: usize,
}

// What the expression at `node` comes to is shown, behind byte `shown` of the room.
pub fn run_show(
    words: &[u32],
    node: usize,
    memory: &Memory,
    area: &[u64],
    inputs: &[u8],
    room: &mut [u8],
    shown: usize,
    scratch: &mut [f64],
) -> Result<Shown, Stop>
    requires stands { Stands words.now node }
    requires runnable { Runnable words.now }
    requires standing { Standing area.now inputs.now memory.now.names }
    requires keeps { Keeps memory.now area.now }
    requires small { length area.now ≤ 2 ^ 26 }
    requires behind { shown ≤ length room.old }
    requires scratch { 4352 ≤ length scratch.old }
    ensures skips { IfOk result (λ s. Skips words.now node s.next) }
    ensures right { (e : Expr ℕ) (t : List Mark) (u : State ℕ) → steps_from words.now node ≡ spell e t → Stood area.now inputs.now memory.now.names u.names → ShowGoes u (is_shown u (value_in (sizes (length area.now)) binary64 (inputs_of inputs.now) u e)) shown room.old room.new result }
{
    let left = area.len() as u64 - memory.held;
    let planned = plan(words, node, &memory.names, inputs, left)?;
    let env = Env {
        words,
        names: &memory.names,
        lent: Lent {
            area,
            bytes: inputs,
        },
        shape: planned.shape,
    };
    let end = show_tree(&env, node, room, shown, scratch).ok_or(Fault::Room.at(node))?;
    Ok(Shown {
        next: planned.next,
        end,
    })
}

// The view that the expression at `node` is, where it is just a name or an input: such an array is not copied.
fn find_view(words: &[u32], node: usize, names: &[Option<View>; 64], inputs: &[u8]) -> Option<View>
    requires stands { Stands words.now node }
    requires good { GoodSlots names.now }
    ensures { IfSome result (λ v. ViewOf words.now node names.now inputs.now v) }
{
    let step = step_at(words, node)?;
    match step {
        Step::Name(k) => view_of(names, k),
        Step::Input(k) => {
            let head = find_input(inputs, k as usize)?;
            Some(of_input(head))
        }
        _ => None,
    }
}

// Name `name` gets a new buffer, with the numbers of the tree at `node`.
fn bind_new(
    words: &[u32],
    node: usize,
    name: usize,
    memory: &mut Memory,
    area: &mut [u64],
    inputs: &[u8],
    shape: Shape,
    scratch: &mut [f64],
)
    requires there { name < 64 }
    requires ready { Ready words.now node memory.old.names area.old inputs.now (shape_of shape) }
    requires shallow { Shallow words.now node }
    requires keeps { Keeps memory.old area.old }
    requires small { length area.old ≤ 2 ^ 26 }
    requires fits { memory.old.held + size (shape_of shape) ≤ length area.old }
    requires scratch { 4352 ≤ length scratch.old }
    ensures keeps { Keeps memory.new area.new }
    ensures bound { NewBound words.now node inputs.now (shape_of shape) name area.old area.new memory.old.names memory.new.names }
{
    let to = reserve(memory, area, shape.size() as usize);
    store_with(words, node, &memory.names, area, inputs, shape, to, scratch);
    bind(memory, name, of_buffer(to, shape));
}

// Name `name` gets what the expression at `node` comes to; gives the node behind it.
pub fn run_let(
    words: &[u32],
    node: usize,
    name: u32,
    memory: &mut Memory,
    area: &mut [u64],
    inputs: &[u8],
    scratch: &mut [f64],
) -> Result<usize, Stop>
    requires stands { Stands words.now node }
    requires runnable { Runnable words.now }
    requires standing { Standing area.old inputs.now memory.old.names }
    requires keeps { Keeps memory.old area.old }
    requires small { length area.old ≤ 2 ^ 26 }
    requires scratch { 4352 ≤ length scratch.old }
    ensures keeps { Keeps memory.new area.new }
    ensures skips { IfOk result (λ j. Skips words.now node j) }
    ensures right { (e : Expr ℕ) (t : List Mark) (u : State ℕ) → steps_from words.now node ≡ spell e t → Stood area.old inputs.now memory.old.names u.names → LetGoes u (becomes (sizes (length area.old)) u name (value_in (sizes (length area.old)) binary64 (inputs_of inputs.now) u e)) area.new inputs.now memory.new.names result }
{
    let left = area.len() as u64 - memory.held;
    let planned = plan(words, node, &memory.names, inputs, left)?;
    let k = name as usize;
    if k >= 64 {
        return Err(Fault::Nothing.at(node));
    }
    match find_view(words, node, &memory.names, inputs) {
        Some(view) => bind(memory, k, view),
        None => bind_new(words, node, k, memory, area, inputs, planned.shape, scratch),
    }
    Ok(planned.next)
}
