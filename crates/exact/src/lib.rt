#![tactic(auto)]
// Arithmetic on whole numbers that is exact beyond 64 bits.
ghost use Rattle.std.specs.Prelude.{◌≡◌, ◌+◌, ◌-◌, ◌*◌, ◌/◌, ◌^◌, ◌<◌};
ghost use Rattle.rules.specs.Sums.{only};
ghost use Rattle.exact.specs.Parts.{value, Of};

// A number by a divisor: how often the divisor goes into it, and what is left.
#[derive(Clone, Copy)]
struct Parts {
    whole: u64,
    rest: u64,
}

impl Parts {
    // The sum of two numbers by one divisor. Nothing on the way passes the divisor.
    fn plus(self, more: Parts, d: u64) -> Parts
        requires { (self.rest < d) × (more.rest < d) × ((value self d + value more d) / d < 2 ^ 64) }
        ensures { Of d (value self d + value more d) result }
    {
        let room = d - more.rest;
        if self.rest < room {
            Parts {
                whole: self.whole + more.whole,
                rest: self.rest + more.rest,
            }
        } else {
            Parts {
                whole: self.whole + more.whole + 1,
                rest: self.rest - room,
            }
        }
    }

    // Twice a number, and another more where a bit is set.
    #[tactic(auto, unfolding(rules::specs::Sums::only))]
    fn twice_plus(self, set: bool, more: Parts, d: u64) -> Parts
        requires { (self.rest < d) × (more.rest < d) × ((2 * value self d + only set (value more d)) / d < 2 ^ 64) }
        ensures { Of d (2 * value self d + only set (value more d)) result }
    {
        let twice = self.plus(self, d);
        if set { twice.plus(more, d) } else { twice }
    }
}

// a * b by d, from a's top bit down: what a's bits so far times b come to is doubled, and b added where the next bit is set.
fn long_product(a: u64, b: u64, d: u64) -> Parts
    requires { (0 < d) × (a * b / d < 2 ^ 64) }
    ensures { Of d (a * b) result }
{
    let q = Parts {
        whole: b / d,
        rest: b % d,
    };
    let mut p = Parts { whole: 0, rest: 0 };
    for k in (0..64 - a.leading_zeros()).rev() {
        p = p.twice_plus((a >> k) % 2 == 1, q, d);
    }
    p
}

// a * b / d, where the quotient fits, though a * b may need 128 bits. Numbers of m and of n binary digits have a product of at most m + n: nearly
// all fit 64 bits, and are divided as they are.
pub fn mul_div(a: u64, b: u64, d: u64) -> u64
    requires { (0 < d) × (a * b / d < 2 ^ 64) }
    ensures { result ≡ a * b / d }
{
    if 64 <= a.leading_zeros() + b.leading_zeros() {
        return a * b / d;
    }
    long_product(a, b, d).whole
}
