// A view of a buffer that was moved down in the number area.
ghost use Rattle.std.specs.Prelude.{◌≡◌, ℕ, ◌≤◌, List};
ghost use Rattle.semantics.specs.Arrays.{Array};
ghost use Rattle.views.specs.declared.view.Source.TheVariants.{Area};
ghost use Rattle.views.specs.Views.{Good, Holds};
ghost use Rattle.views.specs.Shifting.{Shifted, Moved};

use crate::view::View;

// The same places, where the words that the view looks into begin at `to` now.
pub fn shift_down(view: View, to: usize) -> View
    requires good { Good view }
    requires down { to ≤ view.low }
    ensures shifted { Shifted view to result }
    ensures holds { (old new bs : List ℕ) (a : Array ℕ) → view.source ≡ Area → Holds old bs view a → Moved old new view.low view.high to → Holds new bs result a }
{
    let by = view.low - to;
    // a view without places may begin anywhere
    let start = if view.start >= by {
        view.start - by
    } else {
        to
    };
    View {
        start,
        low: to,
        high: view.high - by,
        ..view
    }
}
