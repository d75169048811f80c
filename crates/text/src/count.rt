// A count of the bytes of texts.
ghost use Rattle.std.specs.Prelude.{◌≡◌, ◌+◌, ◌-◌, ◌^◌, length};
ghost use Rattle.rules.specs.Text.{decimal};
ghost use Rattle.text.specs.Written.{Long};
ghost use Rattle.text.specs.Puts.{counts_on};

use crate::Sink;

#[derive(Drop)]
pub struct Count {
    pub bytes: usize,
}

impl Sink for Count {
    ghost at = { λ s. s.bytes };

    ghost end = { λ s. 2 ^ 64 - 1 };

    ghost takes = { λ a t b. b.bytes ≡ a.bytes + length t };

    fn text(&mut self, text: &[u8]) {
        self.bytes += text.len();
    }

    fn number(&mut self, n: u64) {
        self.bytes += number_length(n);
    }

    ghost goes_on = { λ a b c s t p q. counts_on a.bytes b.bytes c.bytes s t p q };
}

// How many digits a number has: one more than the power of ten that it reaches. 0 has one too.
#[tactic(auto, using(crate::proofs::Decimal::length_one, crate::proofs::Decimal::length_power, crate::proofs::Decimal::length_most))]
pub fn number_length(n: u64) -> usize
    ensures { Long (decimal n) 20 result }
{
    match n.checked_ilog10() {
        Some(power) => power as usize + 1,
        None => 1,
    }
}
