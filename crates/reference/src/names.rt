// What names hold: how many places that is, and a name that gets an array.
ghost use Rattle.std.specs.Prelude.{◌≡◌, ◌-◌, ◌^◌, ◌<◌, min, length, MatchOption, slice_index_or};
ghost use Rattle.semantics.specs.Programs.{cell_size, in_names};
ghost use Rattle.semantics.specs.Values.{none, some};
ghost use Rattle.reference.specs.ArrayOf.{array_of};
ghost use Rattle.reference.specs.CellsOf.{cell_of, cells_of, Puts};

use crate::array::Array;
use crate::fault::Fault;

fn cell_places(cell: &Option<Array>) -> u64
    ensures { result ≡ cell_size (cell_of cell.now) }
{
    match cell {
        None => 0,
        Some(array) => array.numbers.len() as u64,
    }
}

// How many places names hold together; where they are 2^64 or more, 2^64 - 1.
pub fn held_places(names: &Vec<Option<Array>>) -> u64
    ensures { result ≡ min (in_names (cells_of names.now)) (2 ^ 64 - 1) }
{
    let mut places: u64 = 0;
    for cell in names {
        places = places.saturating_add(cell_places(cell));
    }
    places
}

// The array of a name, where it has one.
pub fn find_array(names: &Vec<Option<Array>>, name: u32) -> Option<&Array>
    ensures { MatchOption result (slice_index_or (cells_of names.now) name none ≡ none) (λ a. (name < length names.now.items) × (slice_index_or (cells_of names.now) name none ≡ some (array_of a.now))) }
{
    names.get(name as usize)?.as_ref()
}

// A name that there may be holds the array.
pub fn put_cell(names: &mut Vec<Option<Array>>, name: u32, array: Array) -> Result<(), Fault>
    ensures { Puts names.old names.new name array result }
{
    let k = name as usize;
    if k >= names.len() {
        return Err(Fault::Nothing);
    }
    names[k] = Some(array);
    Ok(())
}
