#![tactic(auto)]
// The charged days of a supply point by spans: days that stand side by side and have one provider and one condition. A point's spans stand in a lent
// vector, each with the entry before which it ends, its provider, its condition by groups, and four sums over its days. What some days have is added
// to the spans that they meet, so that nothing is kept or done for each day.
ghost use Rattle.std.specs.Prelude.{◌≡◌, ℕ, ◌+◌, ◌*◌, ◌<◌, ◌≤◌, ◌^◌, length, set};
ghost use Rattle.spans.specs.Spans.{Sums, Times, clear_span, begin_in, Cut, Reached, Holds, SpanAdded, SumsAdded, figure_of, litres_of, RoomAt, during, Grown, Room};

use arrayvec::ArrayVec;
use records::Groups;
use std::ops::{Add, Mul};

// A point has at most 24 transfers and 48 conditions, and so at most as many spans.
pub const MOST_SPANS: usize = 72;

// What each of some days has of meters, or all of them together: annual charge, allowance and threshold × share.
#[derive(Clone, Copy, Default)]
pub struct Figures {
    pub annual: u64,
    pub allowance: u64,
    pub threshold: u64,
}

// Each is added to its own.
impl Add for Figures {
    type Output = Figures;

    ghost can_add = { λ x y. (x.annual + y.annual < 2 ^ 64) × (x.allowance + y.allowance < 2 ^ 64) × (x.threshold + y.threshold < 2 ^ 64) };

    ghost add_gives = { Sums };

    fn add(self, more: Figures) -> Figures {
        Figures {
            annual: self.annual + more.annual,
            allowance: self.allowance + more.allowance,
            threshold: self.threshold + more.threshold,
        }
    }
}

// So many times each.
impl Mul<u64> for Figures {
    type Output = Figures;

    ghost can_mul = { λ x n. (x.annual * n < 2 ^ 64) × (x.allowance * n < 2 ^ 64) × (x.threshold * n < 2 ^ 64) };

    ghost mul_gives = { Times };

    fn mul(self, times: u64) -> Figures {
        Figures {
            annual: self.annual * times,
            allowance: self.allowance * times,
            threshold: self.threshold * times,
        }
    }
}

// Days that stand side by side and have one provider and one condition: the entry before which they end, and what all of them have together.
#[derive(Clone, Copy, Default)]
pub struct Span {
    pub end: usize,
    pub provider: u64,
    pub groups: Groups,
    pub litres: u64,
    pub figures: Figures,
}

// A span that ends before an entry, and has a provider and a condition; its sums are 0.
fn clear_span(end: usize, provider: u64, groups: Groups) -> Span
    ensures { result ≡ clear_span end provider groups }
{
    Span {
        end,
        provider,
        groups,
        ..Span::default()
    }
}

// The span at a place becomes such a one.
pub fn set_span(spans: &mut [Span], s: usize, end: usize, provider: u64, groups: Groups)
    requires { s < length spans.old }
    ensures { spans.new ≡ set spans.old s (clear_span end provider groups) }
{
    spans[s] = clear_span(end, provider, groups);
}

// One more such span.
pub fn add_span(spans: &mut ArrayVec<Span, MOST_SPANS>, end: usize, provider: u64, groups: Groups)
    requires { length spans.old.items < 72 }
    ensures { SpanAdded spans.old.items spans.new.items end provider groups }
{
    spans.push(clear_span(end, provider, groups));
}

// The span that holds the day of an entry, from one on that does not begin after it.
#[tactic(auto, unfolding(crate::specs::Spans::span_in))]
pub fn span_with(spans: &[Span], from: usize, i: usize) -> usize
    requires { Reached spans.now (length spans.now) «from» i × (i < begin_in spans.now (length spans.now)) }
    ensures { Holds spans.now (length spans.now) i result }
{
    let mut s = from;
    // A `while`: it starts at a place that is known and mostly ends there, where `position` would start a search and owe that it finds one.
    while spans[s].end <= i {
        s += 1;
    }
    s
}

// A span's litres become more.
pub fn add_litres(spans: &mut [Span], s: usize, litres: u64)
    requires { RoomAt spans.old s (litres_of litres) }
    ensures { SumsAdded spans.old spans.new s (litres_of litres) }
{
    spans[s].litres += litres;
}

// So many of a span's days have more of meters.
fn add_each(spans: &mut [Span], s: usize, days: u64, each: Figures)
    requires { RoomAt spans.old s (λ q. figure_of each q * days) }
    ensures { SumsAdded spans.old spans.new s (λ q. figure_of each q * days) }
{
    let span = &mut spans[s];
    span.figures = span.figures + each * days;
}

// The days of the entries from one on, before another, have more of meters.
#[tactic(auto, unfolding(crate::specs::Spans::span_in))]
pub fn add_figures(spans: &mut [Span], from: usize, to: usize, each: Figures)
    requires cut { (n : ℕ) × Cut spans.old n (length spans.old) × (to ≤ n) }
    requires room { Room spans.old (length spans.old) (λ q. during «from» to (λ i. figure_of each q)) }
    ensures { Grown spans.old spans.new (length spans.old) (λ q. during «from» to (λ i. figure_of each q)) }
{
    let mut i = from;
    let mut s: usize = 0;
    // A `while`: it steps from cut to cut.
    while i < to {
        s = span_with(spans, s, i);
        let stop = spans[s].end.min(to);
        add_each(spans, s, (stop - i) as u64, each);
        i = stop;
    }
}
