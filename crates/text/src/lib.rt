#![tactic(auto)]
// Text and numbers, put one after another into whatever takes them: into a lent space, or into a count of bytes, so that a text is said once and its
// length is had of the same code.
ghost use Rattle.std.specs.Prelude.{ℕ, ◌++◌, ◌+◌, ◌≤◌, List, length};
ghost use Rattle.rules.specs.Text.{decimal};
ghost use Rattle.text.specs.Written.{Taken, single};

mod count;
mod space;

pub use count::{Count, number_length};
pub use space::Space;

// What takes texts. It asks that it has room for them.
pub trait Sink {
    // How far it is, and how far it goes.
    ghost at: { Self → ℕ };

    ghost end: { Self → ℕ };

    // What it was, a text, and what it is once the text is put into it.
    ghost takes: { Self → List ℕ → Self → Type 0 };

    fn text(&mut self, text: &[u8])
        requires { at self.old + length text.now ≤ end self.old }
        ensures { Taken at end takes self.old text.now self.new };

    fn number(&mut self, n: u64)
        requires { at self.old + length (decimal n) ≤ end self.old }
        ensures { Taken at end takes self.old (decimal n) self.new };

    // Two texts one after another are one text.
    ghost goes_on: { (a b c : Self) (s t : List ℕ) → takes a s b → takes b t c → takes a (s ++ t) c };

    // A label and a number. It is made part of its caller, as a `Space`'s `text` is, so that a label's length is known where it is copied: then a few
    // stores do.
    #[inline(always)]
    final fn field(&mut self, label: &[u8], n: u64)
        requires { at self.old + length label.now + length (decimal n) ≤ end self.old }
        ensures { Taken at end takes self.old (label.now ++ decimal n) self.new }
    {
        self.text(label);
        self.number(n);
    }

    // A line that has a label, a number and no more.
    #[inline(always)]
    #[tactic(auto, using(crate::specs::Puts::sizes), unfolding(crate::specs::Written::single, rules::specs::Text::text))]
    final fn single(&mut self, label: &[u8], n: u64)
        requires { at self.old + length (single label.now n) ≤ end self.old }
        ensures { Taken at end takes self.old (single label.now n) self.new }
    {
        self.field(label, n);
        self.text(b",,\n");
    }
}
