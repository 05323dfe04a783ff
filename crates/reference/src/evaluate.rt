// What an expression comes to: operands before their operation, left before right, each with the places that
// those before it left.
ghost use Rattle.std.specs.Prelude.{◌≡◌, ℕ};
ghost use Rattle.semantics.specs.Arrays.{Array as Meant};
ghost use Rattle.semantics.specs.Values.{Expr, Value, on_choose, value};
ghost use Rattle.numbers.specs.Operations.{binary64};
ghost use Rattle.encoding.specs.Format.{inputs_of};
ghost use Rattle.program.specs.Standing.{Stands};
ghost use Rattle.program.specs.Words.{At};
ghost use Rattle.reference.specs.ArrayOf.{array_of};
ghost use Rattle.reference.specs.CellsOf.{cells_of, sizes};
ghost use Rattle.reference.specs.Operands.{arity_of, Leaf, One as Ones, Two as Twos};
ghost use Rattle.reference.specs.Right.{Right};
ghost use Rattle.reference.specs.Evaluation.{Evaluates};
ghost use Rattle.reference.specs.declared.evaluate.Arity.TheVariants.{Zero, One, Two, Three};

use crate::array::Array;
use crate::brackets::skip_brackets;
use crate::fault::Stop;
use crate::leaf::take_constant;
use crate::made::Made;
use crate::task::Task;
use program::step::Step;
use program::words::step_at;

// How many operands a step has.
// Stays: an enum that carries the operations would say `Step` again, with a match as long as `find_arity` to make it.
#[derive(Clone, Copy)]
pub enum Arity {
    Zero,
    One,
    Two,
    Three,
}

// What an expression came to, and the node behind it.
#[derive(Drop)]
pub struct Valued {
    pub made: Made,
    pub next: usize,
}

fn find_arity(step: Step) -> Arity
    ensures { result ≡ arity_of step }
{
    match step {
        Step::Each(_) => Arity::One,
        Step::Both(_) => Arity::Two,
        Step::Choose => Arity::Three,
        Step::Fold(_, _) => Arity::One,
        Step::Scan(_, _) => Arity::One,
        Step::Shape => Arity::One,
        Step::Turn => Arity::One,
        Step::Part => Arity::One,
        Step::Join(_) => Arity::Two,
        Step::Rows => Arity::Two,
        _ => Arity::Zero,
    }
}

impl Task<'_> {
    // A step without operands.
    fn apply_none(&self, names: &Vec<Option<Array>>, step: Step) -> Result<Made, Stop>
        requires leaf { (e : Expr ℕ) × Leaf step e }
        ensures { (p : ℕ) (e : Expr ℕ) → Leaf step e → Right (value (sizes p) binary64 (inputs_of self.now.inputs.now) (cells_of names.now) self.now.places e) result }
    {
        match step {
            Step::Name(k) => self.take_name(names, k),
            Step::Input(k) => self.take_input(k),
            Step::Constant(x) => take_constant(self.heap, x, self.places),
            Step::Count(n) => self.take_count(n),
            _ => unreachable(),
        }
    }

    // A step with one operand, whose array is there; the items and slices of its brackets stand from `behind` on.
    // Not inlined, as `evaluate_one` and `apply_choose` are not.
    #[inline(never)]
    fn apply_one(&self, behind: usize, step: Step, array: &Array, taken: u64) -> Result<Made, Stop>
        requires single { arity_of step ≡ One }
        ensures { (p : ℕ) (e o : Expr ℕ) (f : Meant ℕ → ℕ → Value ℕ) → Ones self.now.words.now behind self.now.places p step e o f → Right (f (array_of array.now) taken) result }
    {
        match step {
            Step::Each(op) => self.apply_each(op, array, taken),
            Step::Fold(op, axis) => self.apply_fold(op, axis, array, taken),
            Step::Scan(op, axis) => self.apply_scan(op, axis, array, taken),
            Step::Shape => self.apply_shape(behind, array, taken),
            Step::Turn => self.apply_turn(behind, array, taken),
            Step::Part => self.apply_part(behind, array, taken),
            _ => unreachable(),
        }
    }

    // A step with two operands, whose arrays are there. Not inlined, as `apply_one` is not.
    #[inline(never)]
    fn apply_two<'a>(
        &self,
        step: Step,
        first: &'a Array,
        second: &'a Array,
        taken: u64,
    ) -> Result<Made, Stop>
        requires double { arity_of step ≡ Two }
        ensures { (p : ℕ) (e o q : Expr ℕ) (f : Meant ℕ → Meant ℕ → ℕ → Value ℕ) → Twos self.now.places p step e o q f → Right (f (array_of first.now) (array_of second.now) taken) result }
    {
        match step {
            Step::Both(op) => self.apply_both(op, first, second, taken),
            Step::Join(axis) => self.apply_join(axis, first, second, taken),
            Step::Rows => self.apply_rows(first, second, taken),
            _ => unreachable(),
        }
    }

    // No operands. Not inlined, as `evaluate_one` is not.
    #[inline(never)]
    fn evaluate_none(
        &self,
        names: &Vec<Option<Array>>,
        node: usize,
        step: Step,
    ) -> Result<Valued, Stop>
        requires stands { Stands self.now.words.now node }
        requires at { At self.now.words.now node step }
        requires leaf { arity_of step ≡ Zero }
        ensures { Evaluates self.now.words.now self.now.inputs.now names.now node self.now.places result }
    {
        let made = self.apply_none(names, step)?;
        Ok(Valued {
            made,
            next: node + 1,
        })
    }

    // One operand, which stands behind its brackets. Not inlined, nor are the operations: else each level of a nest takes
    // the locals of all of them, and a deep nest three times the stack.
    #[cycle(evaluation)]
    #[inline(never)]
    fn evaluate_one(
        &self,
        names: &Vec<Option<Array>>,
        node: usize,
        step: Step,
    ) -> Result<Valued, Stop>
        requires stands { Stands self.now.words.now node }
        requires at { At self.now.words.now node step }
        requires single { arity_of step ≡ One }
        ensures { Evaluates self.now.words.now self.now.inputs.now names.now node self.now.places result }
    {
        let behind = node + 1;
        let operand = skip_brackets(self.words, behind);
        let a = self.evaluate(names, operand)?;
        let made = self.apply_one(behind, step, &a.made.array, a.made.count)?;
        Ok(Valued { made, next: a.next })
    }

    // Two operands.
    #[cycle(evaluation)]
    #[inline(never)]
    fn evaluate_two(
        &self,
        names: &Vec<Option<Array>>,
        node: usize,
        step: Step,
    ) -> Result<Valued, Stop>
        requires stands { Stands self.now.words.now node }
        requires at { At self.now.words.now node step }
        requires double { arity_of step ≡ Two }
        ensures { Evaluates self.now.words.now self.now.inputs.now names.now node self.now.places result }
    {
        let a = self.evaluate(names, node + 1)?;
        let after = Task {
            heap: self.heap,
            words: self.words,
            inputs: self.inputs,
            places: self.places - a.made.count,
        };
        let b = after.evaluate(names, a.next)?;
        let taken = a.made.count + b.made.count;
        let made = self.apply_two(step, &a.made.array, &b.made.array, taken)?;
        Ok(Valued { made, next: b.next })
    }

    // Three operands.
    #[cycle(evaluation)]
    #[inline(never)]
    fn evaluate_three(
        &self,
        names: &Vec<Option<Array>>,
        node: usize,
        step: Step,
    ) -> Result<Valued, Stop>
        requires stands { Stands self.now.words.now node }
        requires at { At self.now.words.now node step }
        requires triple { arity_of step ≡ Three }
        ensures { Evaluates self.now.words.now self.now.inputs.now names.now node self.now.places result }
    {
        let a = self.evaluate(names, node + 1)?;
        let after = Task {
            heap: self.heap,
            words: self.words,
            inputs: self.inputs,
            places: self.places - a.made.count,
        };
        let b = after.evaluate(names, a.next)?;
        let last = Task {
            heap: self.heap,
            words: self.words,
            inputs: self.inputs,
            places: self.places - a.made.count - b.made.count,
        };
        let d = last.evaluate(names, b.next)?;
        let taken = a.made.count + b.made.count + d.made.count;
        let made = self.apply_choose(&a.made.array, &b.made.array, &d.made.array, taken)?;
        Ok(Valued { made, next: d.next })
    }

    #[cycle(evaluation)]
    pub fn evaluate(&self, names: &Vec<Option<Array>>, node: usize) -> Result<Valued, Stop>
        requires stands { Stands self.now.words.now node }
        ensures { Evaluates self.now.words.now self.now.inputs.now names.now node self.now.places result }
    {
        let Some(step) = step_at(self.words, node) else {
            return unreachable();
        };
        match find_arity(step) {
            Arity::Zero => self.evaluate_none(names, node, step),
            Arity::One => self.evaluate_one(names, node, step),
            Arity::Two => self.evaluate_two(names, node, step),
            Arity::Three => self.evaluate_three(names, node, step),
        }
    }
}
