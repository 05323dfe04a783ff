// Symbols to push, and the symbols that are pushed.
ghost use Rattle.std.specs.Prelude.{◌≡◌, ◌≤◌, length};
ghost use Rattle.reader.specs.Pushed.{symbols_of};

use crate::pushes::Pushes;
use grammar::symbol::Symbol;

impl Pushes {
    #[inline(always)]
    pub fn as_slice(&self) -> &[Symbol]
        ensures are { result.now ≡ symbols_of self.now }
        ensures few { length result.now ≤ 8 }
    {
        &self.at[..self.len]
    }
}

// The first eight of at least as many.
macro_rules! first_eight {
    ($a:expr, $b:expr, $c:expr, $d:expr, $e:expr, $f:expr, $g:expr, $h:expr $(, $more:expr)*) => {
        [$a, $b, $c, $d, $e, $f, $g, $h]
    };
}

// How many there are.
macro_rules! how_many {
    () => { 0 };
    ($first:expr $(, $more:expr)*) => { 1 + how_many!($($more),*) };
}

// These symbols: the array is written out, since one that is filled and copied makes reading 5 % slower.
macro_rules! pushes {
    ($($symbol:expr),* $(,)?) => {
        Pushes {
            len: how_many!($($symbol),*),
            at: first_eight!(
                $($symbol,)*
                Symbol::Lines, Symbol::Lines, Symbol::Lines, Symbol::Lines,
                Symbol::Lines, Symbol::Lines, Symbol::Lines, Symbol::Lines
            ),
        }
    };
}

pub(crate) use first_eight;
pub(crate) use how_many;
pub(crate) use pushes;
