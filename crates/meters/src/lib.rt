#![tactic(auto)]
// The meters of a supply point, added to its spans: the litres of their advances, and their bands' figures on their meter days. Each record of the
// point's meters is read once.
ghost use Rattle.std.specs.Prelude.{◌≡◌, ◌↔◌, IsTrue, ◌+◌, ◌-◌, ◌*◌, ◌≤◌, ◌<◌, ◌^◌, length, min, []};
ghost use Rattle.rules.specs.File.{reads, meter_at, meters as meters_from, after_reads, after_meter, after_meters};
ghost use Rattle.rules.specs.Sums.{only};
ghost use Rattle.rules.specs.Litres.{advance, carried_before, meter_litres};
ghost use Rattle.rules.specs.Good.{GoodMeterHead, GoodRead, GoodAdvance, GoodMeter};
ghost use Rattle.bands.specs.Bands.{bands_in};
ghost use Rattle.spans.specs.Spans.{end_in, Cut, Reached, litres_of, figure_of, during, Grown, Room};
ghost use Rattle.meters.specs.Meters.{spread_of, meter_of, AdvanceOf, Weights, meter_figure, RoomWith, GrownWith, GoodBands, GoodMeters, SumsClear, MetersIn};

mod advance;

pub use advance::Advance;
use bands::Bands;
use bits::{Cursor, Taken};
use charged::Charged;
use judges::Dial;
use records::Records;
use rules::{Band, MeterHead, Read, only};
use spans::{Figures, Span, add_figures, add_litres, span_with};

// What the days of an advance before a day carry. Before the first they carry nothing and before the last day's end all of it, where nothing is
// divided by the number of days.
#[tactic(auto, unfolding(rules::specs::Litres::carried_before))]
fn carried_before(a: Advance, day: u64) -> u64
    requires { day ≤ a.last }
    ensures { result ≡ carried_before a.litres a.parts (a.last - a.first) (day - a.first) }
{
    if day <= a.first {
        return 0;
    }
    let amount = a.litres * a.parts;
    if a.last <= day {
        return amount / 10000;
    }
    amount * (day - a.first) / (10000 * (a.last - a.first))
}

// An advance is added to the spans that its days meet: each has what the days before its end carry, less what those before its beginning carry, so
// that no litre is lost. It begins at a span that does not begin after it, and hands back one that does not begin after its end.
#[tactic(auto, unfolding(spans::specs::Spans::span_in))]
fn add_advance(spans: &mut [Span], days: Charged, from: usize, a: Advance) -> usize
    requires cut { Cut spans.old days.count.0 (length spans.old) }
    requires reached_2 { Reached spans.old (length spans.old) «from» (min (a.first - days.from.0) days.count.0) }
    requires room { Room spans.old (length spans.old) (λ q i. litres_of (spread_of a (days.from.0 + i)) q) }
    ensures added { Grown spans.old spans.new (length spans.old) (λ q i. litres_of (spread_of a (days.from.0 + i)) q) }
    ensures reached { Reached spans.old (length spans.old) result (min (a.last - days.from.0) days.count.0) }
{
    let to = days.entry(a.last);
    let mut i = days.entry(a.first);
    let mut s = from;
    if to <= i {
        return s;
    }
    let mut before = carried_before(a, days.from.0 + i as u64);
    // A `while`: it steps from cut to cut.
    while i < to {
        s = span_with(spans, s, i);
        let stop = spans[s].end.min(to);
        let up = carried_before(a, days.from.0 + stop as u64);
        add_litres(spans, s, up - before);
        before = up;
        i = stop;
    }
    s
}

// Whether the span at a place holds all days of an advance that it does not begin after.
#[tactic(auto, unfolding(spans::specs::Spans::span_in))]
fn holds_all(spans: &[Span], days: Charged, s: usize, a: Advance) -> bool
    requires { Cut spans.now days.count.0 (length spans.now) × (a.first < a.last) }
    ensures { IsTrue result ↔ ((s < length spans.now) × (days.from.0 ≤ a.first) × (a.last - days.from.0 ≤ end_in spans.now s)) }
{
    s < spans.len() && days.from.0 <= a.first && a.last - days.from.0 <= spans[s].end as u64
}

// An advance that one span holds, as most are held, is added to it whole, and none of its days is asked for. Any other is cut at the spans' ends.
fn spread_advance(spans: &mut [Span], days: Charged, from: usize, a: Advance) -> usize
    requires cut { Cut spans.old days.count.0 (length spans.old) }
    requires reached_2 { Reached spans.old (length spans.old) «from» (min (a.first - days.from.0) days.count.0) }
    requires room { Room spans.old (length spans.old) (λ q i. litres_of (spread_of a (days.from.0 + i)) q) }
    ensures added { Grown spans.old spans.new (length spans.old) (λ q i. litres_of (spread_of a (days.from.0 + i)) q) }
    ensures reached { Reached spans.old (length spans.old) result (min (a.last - days.from.0) days.count.0) }
{
    if holds_all(spans, days, from, a) {
        add_litres(spans, from, a.litres * a.parts / 10000);
        return from;
    }
    add_advance(spans, days, from, a)
}

// What the dial counts between two successive reads, in cubic metres: it may have gone past its last value.
fn counts_between(dial: Dial, earlier: Read, later: Read) -> u64
    requires { GoodMeterHead dial.meter × GoodRead dial.meter earlier × GoodAdvance dial.meter earlier later }
    ensures { (result * 1000 ≡ advance (meter_of dial.meter []) earlier later) × (result * 1000 ≤ 100000000000) }
{
    later.value + only(later.rollover, dial.values) - earlier.value
}

// The advance between two successive reads of a meter.
fn advance_of(dial: Dial, earlier: Read, later: Read) -> Advance
    requires { GoodMeterHead dial.meter × GoodRead dial.meter earlier × GoodAdvance dial.meter earlier later }
    ensures { AdvanceOf dial.meter earlier later result }
{
    let counts = counts_between(dial, earlier, later);
    Advance {
        litres: counts * 1000,
        parts: dial.meter.share * dial.meter.returned,
        first: earlier.day,
        last: later.day,
    }
}

// A meter's litres, from its reads. Their days ascend, so that each advance begins at the span where the one before it ended.
fn add_reads(file: &[u8], c: Cursor, head: MeterHead, spans: &mut [Span], days: Charged) -> Cursor
    requires at_bound { after_reads c.at (reads file.now head.reads c.at) < 2 ^ 32 }
    requires good_meter { GoodMeter (meter_of head (reads file.now head.reads c.at)) × Cut spans.old days.count.0 (length spans.old) }
    requires room { Room spans.old (length spans.old) (λ q i. litres_of (meter_litres (meter_of head (reads file.now head.reads c.at)) (days.from.0 + i)) q) }
    ensures ends { result.at ≡ after_reads c.at (reads file.now head.reads c.at) }
    ensures grown { Grown spans.old spans.new (length spans.old) (λ q i. litres_of (meter_litres (meter_of head (reads file.now head.reads c.at)) (days.from.0 + i)) q) }
{
    if head.reads == 0 {
        return c;
    }
    let first = records::read(file, c);
    let mut earlier = first.value;
    let mut next = first.next;
    let mut s: usize = 0;
    let dial = Dial::new(head);
    for _ in 1..head.reads {
        let taken = records::read(file, next);
        let later = taken.value;
        let advance = advance_of(dial, earlier, later);
        s = spread_advance(spans, days, s, advance);
        earlier = later;
        next = taken.next;
    }
    next
}

// A band's figures × a meter's share, as each of the meter's days has them.
fn figures_of(band: Band, share: u64) -> Figures
    requires { (band.annual * share < 2 ^ 64) × (band.allowance * share < 2 ^ 64) × (band.threshold * share < 2 ^ 64) }
    ensures { Weights band share result }
{
    let each = Figures {
        annual: band.annual,
        allowance: band.allowance,
        threshold: band.threshold,
    };
    each * share
}

// Whether there is a day, and entries from one on, before another, are all there are.
fn on_all_days(days: Charged, from: usize, to: usize) -> bool
    ensures { IsTrue result ↔ ((«from» ≡ 0) × (to ≡ days.count.0) × (0 < to)) }
{
    from == 0 && to as u64 == days.count.0 && 0 < to
}

// The figures of a meter that is there on all days, as most are, are only added to `every`, what every day has besides what stands in the sums.
fn add_during(
    spans: &mut [Span],
    days: Charged,
    head: MeterHead,
    each: Figures,
    every: Figures,
) -> Figures
    requires cut { Cut spans.old days.count.0 (length spans.old) }
    requires room_with { RoomWith every spans.old (length spans.old) (λ q i. during head.installed head.removed (λ d. figure_of each q) (days.from.0 + i)) }
    ensures { GrownWith every result spans.old spans.new (length spans.old) (λ q i. during head.installed head.removed (λ d. figure_of each q) (days.from.0 + i)) }
{
    let from = days.entry(head.installed);
    let to = days.entry(head.removed);
    if on_all_days(days, from, to) {
        return every + each;
    }
    add_figures(spans, from, to, each);
    every
}

// A meter: its litres, and its band's figures × its share on its meter days. Return to sewer enters the litres alone.
fn add_meter<'a, const N: usize>(
    file: &'a [u8],
    c: Cursor,
    bands: &'a Bands<N>,
    spans: &mut [Span],
    days: Charged,
    every: Figures,
) -> Taken<Figures>
    requires at_bound { after_meter c.at (meter_at file.now c.at) < 2 ^ 32 }
    requires good_bands { GoodBands file.now bands.now }
    requires good_meter { GoodMeter (meter_at file.now c.at) × Cut spans.old days.count.0 (length spans.old) }
    requires room_with { RoomWith every spans.old (length spans.old) (λ q i. meter_figure (bands_in file.now bands.now) q (meter_at file.now c.at) (days.from.0 + i)) }
    ensures ends { result.next.at ≡ after_meter c.at (meter_at file.now c.at) }
    ensures added { GrownWith every result.value spans.old spans.new (length spans.old) (λ q i. meter_figure (bands_in file.now bands.now) q (meter_at file.now c.at) (days.from.0 + i)) }
{
    let taken = records::meter(file, c);
    let head = taken.value;
    let band = bands.serving(file, head.size);
    let each = figures_of(band, head.share);
    let next = add_reads(file, taken.next, head, spans, days);
    let more = add_during(spans, days, head, each, every);
    Taken { value: more, next }
}

// What the days of each span have of the meters, where the sums were 0. What the meters that are there on all days have together is handed back, and is not added to the spans.
pub fn add_meters<'a, const N: usize>(
    file: &'a [u8],
    list: Records,
    bands: &'a Bands<N>,
    spans: &mut [Span],
    days: Charged,
) -> Taken<Figures>
    requires good_meters { GoodMeters file.now list.count list.first.at × GoodBands file.now bands.now }
    requires cut { Cut spans.old days.count.0 (length spans.old) × SumsClear spans.old (length spans.old) × (days.count.0 ≤ 366) }
    ensures ends { result.next.at ≡ after_meters list.first.at (meters_from file.now list.count list.first.at) }
    ensures sums { MetersIn result.value spans.old spans.new (length spans.old) days.from.0 (bands_in file.now bands.now) (meters_from file.now list.count list.first.at) }
{
    let mut every = Figures::default();
    let mut next = list.first;
    for _ in 0..list.count {
        let added = add_meter(file, next, bands, spans, days, every);
        every = added.value;
        next = added.next;
    }
    Taken { value: every, next }
}
