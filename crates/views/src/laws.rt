// Laws of views. The function here computes nothing: its contract is a theorem.
ghost use Rattle.views.specs.Laws.{OnlyInside};

// What changes outside the words that a view looks into changes nothing that it holds.
pub fn only_inside_stands() -> u8
    ensures { OnlyInside }
{
    0
}
