#![tactic(auto)]
// The charged days of a supply point, cut at its transfers and conditions: days with one provider and one condition are a span. Each record is read
// once, in the order of the days.
ghost use Rattle.std.specs.Prelude.{◌≡◌, ℕ, List, ◌+◌, ◌-◌, ◌≤◌, ◌<◌, ◌^◌, length};
ghost use Rattle.rules.specs.File.{transfer_bits, transfer_at, condition_bits, condition_at};
ghost use Rattle.records.specs.Conditions.{condition_of};
ghost use Rattle.providers.specs.Runs.{SoundTransfers};
ghost use Rattle.cuts.specs.Cuts.{Walked, ReadAhead, Owns, Held, transfer_in, owner_of, condition_in, SoundConditions, CutBy};

use arrayvec::ArrayVec;
use bits::{Cursor, Taken};
use charged::Charged;
use providers::run_end;
use records::{Groups, PointLists, Records};
use rules::{Condition, Transfer};
use spans::{MOST_SPANS, Span, add_span};

// A record of a list whose days ascend, as the file has it, and as the rules see it.
trait Dated: Copy {
    type Seen;

    ghost seen: { Self → Self.Seen };

    ghost here: { List ℕ → ℕ → Self.Seen };

    ghost wide: { ℕ };

    ghost day_of: { Self.Seen → ℕ };

    // The record at a cursor, and the cursor after it.
    fn read(file: &[u8], c: Cursor) -> Taken<Self>
        requires { c.at < 2 ^ 32 }
        ensures { (seen result.value ≡ here file.now c.at) × (result.next.at ≡ c.at + wide) };

    fn day(&self) -> u64
        ensures { result ≡ day_of (seen self.now) };
}

impl Dated for Transfer {
    type Seen = Transfer;

    ghost seen = { λ t. t };

    ghost here = { transfer_at };

    ghost wide = { transfer_bits };

    ghost day_of = { λ t. t.day };

    fn read(file: &[u8], c: Cursor) -> Taken<Transfer> {
        records::transfer(file, c)
    }

    fn day(&self) -> u64 {
        self.day
    }
}

impl Dated for Groups {
    type Seen = Condition;

    ghost seen = { condition_of };

    ghost here = { condition_at };

    ghost wide = { condition_bits };

    ghost day_of = { λ c. c.day };

    fn read(file: &[u8], c: Cursor) -> Taken<Groups> {
        records::condition_groups(file, c)
    }

    fn day(&self) -> u64 {
        Groups::day(*self)
    }
}

// The record in force on the days before an entry, and the one ahead, which is read: so many are left with it. `next` is the cursor after it. Where
// none is left, what stands behind the last was read, and is not asked for.
#[derive(Clone, Copy)]
struct InForce<R> {
    now: R,
    end: usize,
    ahead: R,
    next: Cursor,
    left: u64,
}

// A record is in force until the day of the one ahead, which stands at a cursor and is read; so many are left with it.
fn in_force<R: Dated>(file: &[u8], days: Charged, now: R, c: Cursor, left: u64) -> InForce<R>
    requires { c.at < 2 ^ 32 }
    ensures { ReadAhead (R.here file.now) R.wide R.day_of R.seen days.from.0 days.count.0 now c.at left result }
{
    let taken = R::read(file, c);
    let ahead = taken.value;
    let next = taken.next;
    let end = run_end(left, days, ahead.day());
    InForce {
        now,
        end,
        ahead,
        next,
        left,
    }
}

// The record in force at entry i, from those before it on.
fn record_at<R: Dated>(file: &[u8], from: InForce<R>, days: Charged, i: usize) -> InForce<R>
    requires { ((all : ℕ → R.Seen) × Walked (R.here file.now) R.wide R.day_of R.seen days.from.0 days.count.0 all i «from») × (i < days.count.0) }
    ensures now { ((all : ℕ → R.Seen) → Walked (R.here file.now) R.wide R.day_of R.seen days.from.0 days.count.0 all i «from» → Walked (R.here file.now) R.wide R.day_of R.seen days.from.0 days.count.0 all i result) × (i < result.end) }
    ensures fewer { (result.left ≤ «from».left) × («from».end ≤ i → result.left < «from».left) }
{
    let mut w = from;
    // A `while`: it ends by the day of what is read, and mostly at once.
    while w.end <= i {
        w = in_force(file, days, w.ahead, w.next, w.left - 1);
    }
    w
}

// The first of so many transfers, whose day is not after the first day.
fn first_owner(file: &[u8], list: Records, days: Charged) -> InForce<Transfer>
    requires { SoundTransfers file.now list.count list.first.at days.from.0 }
    ensures { Owns file.now days.from.0 days.count.0 (transfer_in file.now list.count list.first.at days.from.0) 0 result × (result.left ≡ list.count - 1) }
{
    let first = records::transfer(file, list.first);
    in_force(file, days, first.value, first.next, list.count - 1)
}

// Before the first of so many conditions all are 0.
fn no_condition(file: &[u8], list: Records, days: Charged) -> InForce<Groups>
    requires { SoundConditions file.now list.count list.first.at }
    ensures { Held file.now days.from.0 days.count.0 (condition_in file.now list.count list.first.at days.from.0) 0 result × (result.left ≡ list.count) }
{
    in_force(file, days, Groups::default(), list.first, list.count)
}

// The spans of a point's charged days, with no sums. A point has at most 24 transfers and 48 conditions, and so at most 72 spans.
pub fn cut_days(
    file: &[u8],
    lists: PointLists,
    days: Charged,
    spans: &mut ArrayVec<Span, MOST_SPANS>,
)
    requires sound_transfers { SoundTransfers file.now lists.transfers.count lists.transfers.first.at days.from.0 × (lists.transfers.count ≤ 24) }
    requires sound_conditions { SoundConditions file.now lists.conditions.count lists.conditions.first.at × (lists.conditions.count ≤ 48) }
    ensures { CutBy spans.new.items days.count.0 (owner_of file.now lists.transfers.count lists.transfers.first.at days.from.0) (condition_in file.now lists.conditions.count lists.conditions.first.at days.from.0) }
{
    let mut own = first_owner(file, lists.transfers, days);
    let mut held = no_condition(file, lists.conditions, days);
    spans.clear();
    let mut i: usize = 0;
    // A `while`: it steps from cut to cut.
    while (i as u64) < days.count.0 {
        own = record_at(file, own, days, i);
        held = record_at(file, held, days, i);
        let end = own.end.min(held.end);
        add_span(spans, end, own.now.provider, held.now);
        i = end;
    }
}
