// Laws of parts.
ghost use Rattle.semantics.specs.PartLaws.{PartPlaces, PartPlacesBack, PartOfPart, PartOfPartAlike};

pub fn part_places_stands() -> u8
    ensures { PartPlaces }
{
    0
}

pub fn part_places_back_stands() -> u8
    ensures { PartPlacesBack }
{
    0
}

pub fn part_of_part_stands() -> u8
    ensures { PartOfPart }
{
    0
}

pub fn part_of_part_alike_stands<T>() -> u8
    ensures { PartOfPartAlike T }
{
    0
}
