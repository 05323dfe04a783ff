// Laws of orders of axes.
ghost use Rattle.semantics.specs.OrderLaws.{OrderEntries, TurnedSize, TurnedPlaces, OrderAfter, OrderAfterAlike, WayBack, WayBackAlike, TurnedStrides};

pub fn order_entries_stands() -> u8
    ensures { OrderEntries }
{
    0
}

pub fn turned_size_stands() -> u8
    ensures { TurnedSize }
{
    0
}

pub fn turned_places_stands() -> u8
    ensures { TurnedPlaces }
{
    0
}

pub fn order_after_stands() -> u8
    ensures { OrderAfter }
{
    0
}

pub fn order_after_alike_stands<T>() -> u8
    ensures { OrderAfterAlike T }
{
    0
}

pub fn way_back_stands() -> u8
    ensures { WayBack }
{
    0
}

pub fn way_back_alike_stands<T>() -> u8
    ensures { WayBackAlike T }
{
    0
}

pub fn turned_strides_stands() -> u8
    ensures { TurnedStrides }
{
    0
}
