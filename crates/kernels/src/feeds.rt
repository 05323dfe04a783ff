// Where an operand's numbers are, as types, so that a loop over two operands is written and proved once.
ghost use Rattle.std.specs.Prelude.{ℕ};
ghost use Rattle.kernels.specs.declared.operand.Operand.{Operand};
ghost use Rattle.kernels.specs.declared.operand.Operand.TheVariants.{Own, Words, Bytes};
ghost use Rattle.kernels.specs.Operands.{Readable, Fed};

use crate::rows::word_at;
use numbers::plain_float;
use views::lent::Lent;

pub trait Feed {
    ghost operand: { ℕ → Operand };

    fn get(lent: Lent, place: usize, k: usize, own: f64) -> f64
        requires { Readable (operand place) lent.area.now lent.bytes.now k }
        ensures { Fed (operand place) lent.entry.area.now lent.entry.bytes.now k own result };
}

pub struct FromBlock;

impl Feed for FromBlock {
    ghost operand = { λ _. Own };

    fn get(_lent: Lent, _place: usize, _k: usize, own: f64) -> f64 {
        own
    }
}

pub struct FromWords;

impl Feed for FromWords {
    ghost operand = { λ p. Words p };

    fn get(lent: Lent, place: usize, k: usize, _own: f64) -> f64 {
        plain_float(lent.area[place + k])
    }
}

pub struct FromBytes;

impl Feed for FromBytes {
    ghost operand = { λ p. Bytes p };

    fn get(lent: Lent, place: usize, k: usize, _own: f64) -> f64 {
        plain_float(word_at(lent.bytes, place + 8 * k))
    }
}
