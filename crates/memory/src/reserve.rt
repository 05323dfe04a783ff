// Room for a new buffer.
ghost use Rattle.std.specs.Prelude.{◌≡◌, ◌+◌, ◌^◌, ◌<◌, ◌≤◌, length};
ghost use Rattle.memory.specs.Tables.{Neat, Counted, Owned, Carries};

use crate::memory::Memory;
use crate::packing::pack;

// The first word of `count` free ones; buffers are moved together where there are too few above the top. What
// it would take to copy out smaller views stays free besides.
pub fn reserve(memory: &mut Memory, area: &mut [u64], count: usize) -> usize
    requires neat { Neat memory.old.names memory.old.top }
    requires counted { Counted memory.old }
    requires owned { Owned memory.old.names }
    requires there { memory.old.top + memory.old.loose ≤ length area.old }
    requires short { length area.old < 2 ^ 62 }
    requires fits { memory.old.held + count ≤ length area.old }
    ensures top { result ≡ memory.new.top }
    ensures room { result + memory.new.loose + count ≤ length area.old }
    ensures carries { Carries area.old area.new memory.old memory.new }
    ensures owned { Owned memory.new.names }
{
    if memory.top + memory.loose as usize + count > area.len() {
        pack(memory, area);
    }
    memory.top
}
