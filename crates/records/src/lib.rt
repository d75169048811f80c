#![tactic(auto)]
// A reader for each record of a settlement file: the record at a cursor and the cursor after it, whatever the bytes are. Bits past the end are
// 0, so nothing is refused here.
ghost use Rattle.std.specs.Prelude.{◌≡◌, ◌+◌, ◌*◌, ◌<◌, ◌^◌};
ghost use Rattle.rules.specs.File.{header_at, band_at, point_head_at, transfer_at, condition_at, meter_head_at, read_at};
ghost use Rattle.rules.specs.File.{bands_from, bands, after_band, after_bands, transfers_from, after_transfer, after_condition, reads_from, after_read};
ghost use Rattle.rules.specs.File.{meters, after_meters, point_at, after_point};
ghost use Rattle.rules.specs.Good.{Good};
ghost use Rattle.rules.specs.Once.{good_once};
ghost use Rattle.records.specs.Lists.{ListsAt, after_lists};
ghost use Rattle.records.specs.Conditions.{condition_of};

use bits::{Cursor, Taken, cut};
use rules::{Band, Condition, Form, Header, MeterHead, PointHead, Read, Service, Transfer};

// How many bits a record of each kind has.
pub const BAND_BITS: usize = 90;

const TRANSFER_BITS: usize = 32;

const CONDITION_BITS: usize = 72;

const METER_BITS: usize = 72;

const READ_BITS: usize = 44;

// So many records of one kind, one after the other from a cursor on.
#[derive(Clone, Copy, PartialEq, Eq)]
pub struct Records {
    pub first: Cursor,
    pub count: u64,
}

impl Records {
    // The cursor after them, by the bits of each.
    pub fn end(self, width: usize) -> Cursor
        requires { self.first.at + self.count * width < 2 ^ 64 }
        ensures { result.at ≡ self.first.at + self.count * width }
    {
        self.first.past(self.count, width)
    }
}

// A file that was checked: it holds what one that breaks none of 1 to 12 holds. With its header, and where its bands stand; all of a call that
// comes after the check goes on from here.
#[derive(Clone, Copy)]
pub struct Checked<'a> {
    pub bytes: &'a [u8],
    pub head: Header,
    pub bands: Records,
    ghost good: { Good bytes.now } by { good_once bytes.now },
    ghost header: { head ≡ header_at bytes.now },
    ghost listed: { (bands.first.at ≡ bands_from bytes.now) × (bands.count ≡ head.bands) },
}

impl Checked<'_> {
    // The cursor of the first point, after the bands.
    pub fn first_point(&self) -> Cursor
        ensures { result.at ≡ after_bands (bands_from self.now.bytes.now) (bands self.now.bytes.now self.now.head.bands (bands_from self.now.bytes.now)) }
    {
        self.bands.end(BAND_BITS)
    }
}

// A condition by its two groups of fields, as they stand in the file: day, flags and discounts; rateable value. Two numbers hold what a condition
// has in eight.
#[derive(Clone, Copy, Default, PartialEq, Eq)]
pub struct Groups {
    pub state: u64,
    pub rateable: u64,
}

impl Groups {
    // The day of the condition.
    pub fn day(self) -> u64
        ensures { result ≡ (condition_of self).day }
    {
        cut(self.state, 16, 32)
    }
}

impl From<Groups> for Condition {
    ghost from_gives = { λ g c. c ≡ condition_of g };

    fn from(g: Groups) -> Condition {
        Condition {
            day: g.day(),
            vacant: cut(g.state, 1, 31) == 1,
            disconnected: cut(g.state, 1, 30) == 1,
            property: cut(g.state, 1, 29) == 1,
            roads: cut(g.state, 1, 28) == 1,
            schedule3: cut(g.state, 14, 14),
            section29e: cut(g.state, 14, 0),
            rateable: g.rateable,
        }
    }
}

// THE READERS
// Loads are most of what reading costs. So a record is taken in groups of fields that stand side by side, with one load for a group and not for
// each field, and the fields are cut out of their group. `cut` is given a field's width, as document 01 has it, and how many bits of the group
// stand after the field.

// The header, which stands first. Its version says how wide the count of points is, and all that follows stands after that.
pub fn header(file: &[u8]) -> Taken<Header>
    ensures { (result.value ≡ header_at file.now) × (result.next.at ≡ bands_from file.now) }
{
    let c = Cursor { at: 0 };
    let opening = c.take(file, 38);
    let version = cut(opening.value, 4, 18);
    let form = Form::of(version);
    let points = opening.next.take(file, form.count_bits);
    let prices = points.next.take(file, 28);
    let rates = prices.next.take(file, 34);
    let next = rates.next;
    Taken {
        value: Header {
            mark: cut(opening.value, 16, 22),
            version,
            service: Service::of(cut(opening.value, 1, 17)),
            year: cut(opening.value, 12, 5),
            bands: cut(opening.value, 5, 0),
            points: points.value,
            property: cut(prices.value, 14, 14),
            roads: cut(prices.value, 14, 0),
            capacity: cut(rates.value, 17, 17),
            standard: cut(rates.value, 17, 0),
        },
        next,
    }
}

// The size of a band, which is its first field.
pub fn band_size(file: &[u8], c: Cursor) -> u64
    requires { c.at < 2 ^ 32 }
    ensures { result ≡ (band_at file.now c.at).size }
{
    c.take(file, 16).value
}

pub fn band(file: &[u8], c: Cursor) -> Taken<Band>
    requires { c.at < 2 ^ 32 }
    ensures { (result.value ≡ band_at file.now c.at) × (result.next.at ≡ after_band c.at) }
{
    let charge = c.take(file, 46);
    let limits = charge.next.take(file, 44);
    let next = limits.next;
    Taken {
        value: Band {
            size: cut(charge.value, 16, 30),
            annual: cut(charge.value, 30, 0),
            allowance: cut(limits.value, 20, 24),
            threshold: cut(limits.value, 24, 0),
        },
        next,
    }
}

// A point before its lists.
pub fn point(file: &[u8], c: Cursor) -> Taken<PointHead>
    requires { c.at < 2 ^ 32 }
    ensures { (result.value ≡ point_head_at file.now c.at) × (result.next.at ≡ transfers_from c.at) }
{
    let number = c.take(file, 32);
    let days_and_counts = number.next.take(file, 48);
    let next = days_and_counts.next;
    Taken {
        value: PointHead {
            number: number.value,
            connected: cut(days_and_counts.value, 16, 32),
            disconnected: cut(days_and_counts.value, 16, 16),
            transfers: cut(days_and_counts.value, 5, 11),
            conditions: cut(days_and_counts.value, 6, 5),
            meters: cut(days_and_counts.value, 5, 0),
        },
        next,
    }
}

pub fn transfer(file: &[u8], c: Cursor) -> Taken<Transfer>
    requires { c.at < 2 ^ 32 }
    ensures { (result.value ≡ transfer_at file.now c.at) × (result.next.at ≡ after_transfer c.at) }
{
    let day_and_provider = c.take(file, 32);
    let next = day_and_provider.next;
    Taken {
        value: Transfer {
            day: cut(day_and_provider.value, 16, 16),
            provider: cut(day_and_provider.value, 16, 0),
        },
        next,
    }
}

// The groups of the condition at a cursor.
pub fn condition_groups(file: &[u8], c: Cursor) -> Taken<Groups>
    requires { c.at < 2 ^ 32 }
    ensures { (condition_of result.value ≡ condition_at file.now c.at) × (result.next.at ≡ after_condition c.at) }
{
    let state = c.take(file, 48);
    let rateable = state.next.take(file, 24);
    let next = rateable.next;
    Taken {
        value: Groups {
            state: state.value,
            rateable: rateable.value,
        },
        next,
    }
}

pub fn condition(file: &[u8], c: Cursor) -> Taken<Condition>
    requires { c.at < 2 ^ 32 }
    ensures { (result.value ≡ condition_at file.now c.at) × (result.next.at ≡ after_condition c.at) }
{
    let taken = condition_groups(file, c);
    let value = Condition::from(taken.value);
    let next = taken.next;
    Taken { value, next }
}

// A meter before its reads.
pub fn meter(file: &[u8], c: Cursor) -> Taken<MeterHead>
    requires { c.at < 2 ^ 32 }
    ensures { (result.value ≡ meter_head_at file.now c.at) × (result.next.at ≡ reads_from c.at) }
{
    let size = c.take(file, 16);
    let details = size.next.take(file, 56);
    let next = details.next;
    Taken {
        value: MeterHead {
            size: size.value,
            share: cut(details.value, 7, 49),
            returned: cut(details.value, 7, 42),
            digits: cut(details.value, 4, 38),
            installed: cut(details.value, 16, 22),
            removed: cut(details.value, 16, 6),
            reads: cut(details.value, 6, 0),
        },
        next,
    }
}

pub fn read(file: &[u8], c: Cursor) -> Taken<Read>
    requires { c.at < 2 ^ 32 }
    ensures { (result.value ≡ read_at file.now c.at) × (result.next.at ≡ after_read c.at) }
{
    let whole = c.take(file, 44);
    let next = whole.next;
    Taken {
        value: Read {
            day: cut(whole.value, 16, 28),
            rollover: cut(whole.value, 1, 27) == 1,
            value: cut(whole.value, 27, 0),
        },
        next,
    }
}

// The cursor after some meters and their reads. Of a meter only the count of its reads is taken: its last field, of 6 bits.
fn after_meters(file: &[u8], list: Records) -> Cursor
    requires { after_meters list.first.at (meters file.now list.count list.first.at) < 2 ^ 32 }
    ensures { result.at ≡ after_meters list.first.at (meters file.now list.count list.first.at) }
{
    let mut next = list.first;
    for _ in 0..list.count {
        let count_at = Cursor {
            at: next.at + (METER_BITS - 6),
        };
        let reads = count_at.take(file, 6);
        next = reads.next.past(reads.value, READ_BITS);
    }
    next
}

// The cursor after the conditions and the meters of a point, of where the conditions begin.
pub fn after_lists(file: &[u8], c: Cursor, head: PointHead) -> Cursor
    requires { after_lists file.now c.at head < 2 ^ 32 }
    ensures { result.at ≡ after_lists file.now c.at head }
{
    let conditions = Records {
        first: c,
        count: head.conditions,
    };
    let first = conditions.end(CONDITION_BITS);
    let count = head.meters;
    after_meters(file, Records { first, count })
}

// A point before its lists, and where each of them stands.
#[derive(Clone, Copy)]
pub struct PointLists {
    pub head: PointHead,
    pub transfers: Records,
    pub conditions: Records,
    pub meters: Records,
}

// Records of one width are passed over by their count.
pub fn point_lists(file: &[u8], c: Cursor) -> PointLists
    requires { c.at < 2 ^ 32 }
    ensures { ListsAt file.now c.at result }
{
    let taken = point(file, c);
    let head = taken.value;
    let transfers = Records {
        first: taken.next,
        count: head.transfers,
    };
    let conditions = Records {
        first: transfers.end(TRANSFER_BITS),
        count: head.conditions,
    };
    let meters = Records {
        first: conditions.end(CONDITION_BITS),
        count: head.meters,
    };
    PointLists {
        head,
        transfers,
        conditions,
        meters,
    }
}

impl PointLists {
    // The cursor after the point, whose meters stand last.
    pub fn end(self, file: &[u8]) -> Cursor
        requires { after_meters self.meters.first.at (meters file.now self.meters.count self.meters.first.at) < 2 ^ 32 }
        ensures { result.at ≡ after_meters self.meters.first.at (meters file.now self.meters.count self.meters.first.at) }
    {
        after_meters(file, self.meters)
    }
}

// The cursor after a point.
pub fn after_point(file: &[u8], c: Cursor) -> Cursor
    requires { after_point c.at (point_at file.now c.at) < 2 ^ 32 }
    ensures { result.at ≡ after_point c.at (point_at file.now c.at) }
{
    let lists = point_lists(file, c);
    lists.end(file)
}
