ghost use Rattle.semantics.specs.ValueLaws.{ValueReadsPlaces, RunReadsPlaces, ShowsReadPlaces};

// A value, its count and its fault depend only on what arrays have at their places.
pub fn value_reads_places_stands<T>() -> u8
    ensures { ValueReadsPlaces T }
{
    0
}

// So do whole runs.
pub fn run_reads_places_stands<T>() -> u8
    ensures { RunReadsPlaces T }
{
    0
}

// What a program shows and how it ends depend only on what the inputs have at their places.
pub fn shows_read_places_stands<T>() -> u8
    ensures { ShowsReadPlaces T }
{
    0
}
