// Laws of places and their numbers.
ghost use Rattle.semantics.specs.PlaceLaws.{PlacesNumbered};

pub fn places_numbered_stands() -> u8
    ensures { PlacesNumbered }
{
    0
}
