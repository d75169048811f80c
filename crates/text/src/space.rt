// A lent space that texts are written into, from its front on.
ghost use Rattle.std.specs.Prelude.{◌≡◌, ◌+◌, ◌≤◌, length};
ghost use Rattle.rules.specs.Text.{decimal};
ghost use Rattle.std.proofs.Common.{◌∙◌};
ghost use Rattle.text.specs.Written.{Put};
ghost use Rattle.text.specs.Puts.{put_then};

use crate::Sink;
use crate::count::number_length;
use itoa::write_digits;

#[derive(Drop)]
pub struct Space<'a> {
    pub bytes: &'a mut [u8],
    pub at: usize,
}

impl<'a> Space<'a> {
    pub fn new(bytes: &'a mut [u8]) -> Space<'a>
        ensures lent { result.bytes.ghost_name ≡ bytes.entry.ghost_name }
        ensures holds { result.bytes.now ≡ bytes.old }
        ensures at { result.at ≡ 0 }
    {
        Space { bytes, at: 0 }
    }
}

impl<'a> Sink for Space<'a> {
    ghost at = { λ s. s.at };

    ghost end = { λ s. length s.bytes.now };

    ghost takes = { λ a t b. Put a.bytes.now a.at t b.bytes.now b.at × (b.bytes.ghost_name ≡ a.bytes.ghost_name) };

    #[inline(always)]
    fn text(&mut self, text: &[u8]) {
        let after = self.at + text.len();
        let space = &mut *self.bytes;
        copy(&mut space[self.at..after], text);
        self.at = after;
    }

    #[inline(always)]
    fn number(&mut self, n: u64) {
        let space = &mut *self.bytes;
        self.at = put_number(space, self.at, n);
    }

    ghost goes_on = { λ a b c s t p q. (put_then p.0 q.0, q.1 ∙ p.1) };
}

// A text is copied into a space of its length, byte by byte: the library's `copy_from_slice` calls a `memmove` that the unit has not got.
#[inline(always)]
fn copy(space: &mut [u8], text: &[u8])
    requires { length space.old ≡ length text.now }
    ensures { space.new ≡ text.now }
{
    for (place, byte) in text.iter().enumerate() {
        space[place] = *byte;
    }
}

// A number is put by a call, since there are many. It takes the bytes and the place, and not the whole `Space`, which so stays in registers.
#[inline(never)]
#[tactic(auto, using(crate::proofs::Decimal::standard, crate::specs::Puts::put_parts))]
fn put_number(space: &mut [u8], at: usize, n: u64) -> usize
    requires { at + length (decimal n) ≤ length space.old }
    ensures { Put space.old at (decimal n) space.new result }
{
    let end = at + number_length(n);
    write_digits(n, space, end);
    end
}
