// What is built so far: the steps that the engine can run.
ghost use Rattle.std.specs.Prelude.{◌≡◌, ◌<◌, false, length, MatchOption};
ghost use Rattle.program.specs.declared.step.Step.TheVariants.{End};
ghost use Rattle.runtime.specs.Built.{built, AllBuilt, UnbuiltAt};

use program::step::Step;

fn is_built(step: Step) -> bool
    ensures { result ≡ built step }
{
    matches!(
        step,
        Step::Let(_)
            | Step::Show
            | Step::Name(_)
            | Step::Input(_)
            | Step::Constant(_)
            | Step::Count(_)
            | Step::Each(_)
            | Step::Both(_)
    )
}

// The first step that is not built, or none where all are.
pub fn first_unbuilt(steps: &[Step]) -> Option<usize>
    ensures { MatchOption result (AllBuilt steps.now) (λ k. UnbuiltAt steps.now k) }
{
    for (k, step) in steps.iter().enumerate() {
        if !is_built(*step) {
            return Some(k);
        }
    }
    None
}
