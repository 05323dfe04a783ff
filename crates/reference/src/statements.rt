// Statements one by one: an expression has the places that names leave.
ghost use Rattle.std.specs.Prelude.{◌≡◌, ℕ, ◌^◌, ◌≤◌, List, IfOk, Some, slice_index_or};
ghost use Rattle.semantics.specs.Shapes.{size};
ghost use Rattle.semantics.specs.Parts.{Part};
ghost use Rattle.semantics.specs.Values.{Expr, none};
ghost use Rattle.semantics.specs.Programs.{State as Meant, value_in, becomes, is_put, is_shown};
ghost use Rattle.numbers.specs.Operations.{binary64};
ghost use Rattle.encoding.specs.Format.{inputs_of};
ghost use Rattle.program.specs.declared.step.Step.{Step as Mark};
ghost use Rattle.program.specs.Spelling.{slices, spell};
ghost use Rattle.program.specs.Standing.{steps_from, Stands, SlicesStand, Skips};
ghost use Rattle.encoding.specs.ShapeOf.{shape_of};
ghost use Rattle.reference.specs.CellsOf.{sizes};
ghost use Rattle.semantics.specs.Slices.{parts_of};
ghost use Rattle.reference.specs.Running.{EvaluatesIn, Stood, Went, SmallNames, SkipsPut, ReplacesIn, ReplacesAt};

use crate::array::Array;
use crate::brackets::{read_slices, skip_brackets};
use crate::evaluate::Valued;
use crate::fault::{Fault, Stop};
use crate::made::Made;
use crate::names::{find_array, held_places, put_cell};
use crate::output::encode;
use crate::replace::{put, replaceable};
use crate::state::State;
use crate::task::Task;
use encoding::slices::slices_fit;
use semantics::slice::Slice;

impl Task<'_> {
    // What the expression at `node` comes to with the places that names leave.
    fn evaluate_in(&self, node: usize, names: &Vec<Option<Array>>) -> Result<Valued, Stop>
        requires stands { Stands self.now.words.now node }
        ensures { EvaluatesIn self.now.words.now self.now.inputs.now names.now node self.now.places result }
    {
        let left = Task {
            heap: self.heap,
            words: self.words,
            inputs: self.inputs,
            places: self.places.saturating_sub(held_places(names)),
        };
        left.evaluate(names, node)
    }

    // A name gets what the expression at `node` comes to; gives the node behind it.
    pub fn run_let(&self, node: usize, name: u32, state: &mut State) -> Result<usize, Stop>
        requires stands { Stands self.now.words.now node }
        requires fits { SmallNames state.old.names }
        ensures fits { SmallNames state.new.names }
        ensures skips { IfOk result (λ j. Skips self.now.words.now node j) }
        ensures right { (e : Expr ℕ) (s : List Mark) (t : Meant ℕ) → steps_from self.now.words.now node ≡ spell e s → Stood t state.old → Went (becomes (sizes self.now.places) t name (value_in (sizes self.now.places) binary64 (inputs_of self.now.inputs.now) t e)) state.new result }
    {
        let v = self.evaluate_in(node, &state.names)?;
        let Valued { made, next } = v;
        put_cell(&mut state.names, name, made.array)?;
        Ok(next)
    }

    // What the expression at `node` comes to is shown; gives the node behind it.
    pub fn run_show(&self, node: usize, state: &mut State) -> Result<usize, Stop>
        requires stands { Stands self.now.words.now node }
        requires fits { SmallNames state.old.names }
        ensures fits { SmallNames state.new.names }
        ensures skips { IfOk result (λ j. Skips self.now.words.now node j) }
        ensures right { (e : Expr ℕ) (s : List Mark) (t : Meant ℕ) → steps_from self.now.words.now node ≡ spell e s → Stood t state.old → Went (is_shown t (value_in (sizes self.now.places) binary64 (inputs_of self.now.inputs.now) t e)) state.new result }
    {
        let v = self.evaluate_in(node, &state.names)?;
        let bytes = encode(self.heap, &v.made.array)?;
        state.shown.extend_from_slice(bytes.as_slice())?;
        Ok(v.next)
    }

    // What a name holds, with the numbers that slices show replaced by what the expression at `node` comes to.
    fn replace_in<'a>(
        &self,
        node: usize,
        list: &'a [Slice],
        names: &Vec<Option<Array>>,
        old: &'a Array,
    ) -> Result<Valued, Stop>
        requires stands { Stands self.now.words.now node }
        requires fits { size (shape_of old.now.shape) ≤ 2 ^ 26 }
        ensures { (k : ℕ) → ReplacesIn self.now.words.now self.now.inputs.now names.now node self.now.places (parts_of list.now) result k (Some old.now) }
    {
        let v = self.evaluate_in(node, names)?;
        let next = v.next;
        let count = v.made.count;
        let values = v.made.array;
        if !slices_fit(list, &old.shape) {
            return Err(Stop::Fault(Fault::Range));
        }
        if !replaceable(list, &values) {
            return Err(Stop::Fault(Fault::Shapes));
        }
        let array = put(self.heap, list, old, &values)?;
        Ok(Valued {
            made: Made { array, count },
            next,
        })
    }

    fn replace_name(
        &self,
        node: usize,
        list: &[Slice],
        names: &Vec<Option<Array>>,
        name: u32,
    ) -> Result<Valued, Stop>
        requires stands { Stands self.now.words.now node }
        requires fits { SmallNames names.now }
        ensures { ReplacesAt self.now.words.now self.now.inputs.now names.now node self.now.places (parts_of list.now) name result }
    {
        let old = find_array(names, name).ok_or(Fault::Nothing)?;
        self.replace_in(node, list, names, old)
    }

    // A part of what a name holds becomes what an expression comes to; the slices stand at `node`, and the
    // expression behind them. Gives the node behind it.
    pub fn run_put(&self, node: usize, name: u32, state: &mut State) -> Result<usize, Stop>
        requires stands { SlicesStand self.now.words.now node }
        requires fits { SmallNames state.old.names }
        ensures fits { SmallNames state.new.names }
        ensures skips { IfOk result (λ j. SkipsPut self.now.words.now node j) }
        ensures right { (ps : List Part) (e : Expr ℕ) (s : List Mark) (t : Meant ℕ) → steps_from self.now.words.now node ≡ slices ps (spell e s) → Stood t state.old → Went (is_put t name ps (slice_index_or t.names name none) (value_in (sizes self.now.places) binary64 (inputs_of self.now.inputs.now) t e)) state.new result }
    {
        let list = read_slices(self.heap, self.words, node)?;
        let operand = skip_brackets(self.words, node);
        let v = self.replace_name(operand, list.as_slice(), &state.names, name)?;
        let Valued { made, next } = v;
        let Ok(()) = put_cell(&mut state.names, name, made.array) else {
            return unreachable();
        };
        Ok(next)
    }
}
