ghost use Rattle.semantics.specs.RunLaws.{NamesWithin, ShownStays, EndedStays, PlacesOnlyBound};

// Names never hold more than the places there are.
pub fn names_within_stands<T>() -> u8
    ensures { NamesWithin T }
{
    0
}

// What was shown stays shown.
pub fn shown_stays_stands<T>() -> u8
    ensures { ShownStays T }
{
    0
}

// Nothing happens after a fault.
pub fn ended_stays_stands<T>() -> u8
    ensures { EndedStays T }
{
    0
}

// Places only bound what a program does.
pub fn places_only_bound_stands<T>() -> u8
    ensures { PlacesOnlyBound T }
{
    0
}
