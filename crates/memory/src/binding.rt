// Names that hold nothing yet, and a name that holds an array from now on.
ghost use Rattle.std.specs.Prelude.{◌≡◌, ℕ, ◌+◌, ◌^◌, ◌<◌, List, Some};
ghost use Rattle.semantics.specs.Programs.{nothing};
ghost use Rattle.kernels.specs.Filling.{Tabled};
ghost use Rattle.memory.specs.Spans.{slot_size};
ghost use Rattle.memory.specs.Tables.{Neat, Counted, AllFill, Bound};

use crate::memory::Memory;
use crate::spans::{high_of, loose_of, size_of};
use views::view::View;

// 64 names with nothing.
pub fn no_names() -> Memory
    ensures neat { Neat result.names result.top }
    ensures counted { Counted result }
    ensures fills { AllFill result.names }
    ensures zero { (result.top ≡ 0) × (result.held ≡ 0) × (result.loose ≡ 0) }
    ensures tabled { (area bs : List ℕ) → Tabled area bs result.names (nothing 64) }
{
    Memory {
        names: [None; 64],
        top: 0,
        held: 0,
        loose: 0,
    }
}

// Name `name` holds the array that `view` is; what it held is given back.
pub fn bind(memory: &mut Memory, name: usize, view: View)
    requires there { name < 64 }
    requires counted { Counted memory.old }
    requires few { memory.old.held + slot_size (Some view) < 2 ^ 62 }
    ensures { Bound memory.old memory.new name view }
{
    let old = memory.names[name];
    let new = Some(view);
    let freed = size_of(old);
    let taken = size_of(new);
    memory.held = memory.held - freed + taken;
    memory.loose = memory.loose - loose_of(old) + loose_of(new);
    memory.top = memory.top.max(high_of(new));
    memory.names[name] = new;
}
