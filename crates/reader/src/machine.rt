// The automaton's state by value: names so far as parts of the text, a stack of symbols that grows downward, where the
// word so far began, and the number so far. Beside it, so that common bytes are read quickly: for each sum of a word
// which name may be that word, and whether the word so far is known to be shaped as a name.
ghost use Rattle.std.specs.Prelude.{◌+◌, ◌<◌, ◌≤◌, length};
ghost use Rattle.reader.specs.Machines.{Topmost, Placed};

use crate::names::Span;
use grammar::symbol::Symbol;

// How many symbols may stand on the stack: one for each mark, two for each level, and what is pushed at once.
pub const DEPTH: usize = 2112;

#[derive(Drop)]
pub struct Machine {
    pub stack: [Symbol; 2112],
    pub top: usize,
    pub names: [Span; 64],
    pub count: usize,
    pub word: usize,
    pub value: u64,
    pub hints: [u8; 256],
    pub clean: bool,
}

impl Machine {
    // The topmost symbol, where there is one.
    #[inline(always)]
    pub fn top_symbol(&self) -> Option<Symbol>
        ensures { Topmost self.now result }
    {
        if self.top < DEPTH {
            Some(self.stack[self.top])
        } else {
            None
        }
    }

    // Puts symbols in the place of the topmost one. A word begins at `word`, and there is no number so far.
    #[inline(always)]
    pub fn replace_top(&mut self, symbols: &[Symbol], word: usize)
        requires there { self.old.top < length self.old.stack }
        requires room { length symbols.now ≤ self.old.top + 1 }
        ensures { Placed self.old self.new symbols.now word }
    {
        let end = self.top + 1;
        let low = end - symbols.len();
        self.stack[low..end].copy_from_slice(symbols);
        self.top = low;
        self.word = word;
        self.value = 0;
        self.clean = false;
    }
}
