#![tactic(auto)]
// A bit cursor by value: fields are unsigned, bit-packed, most significant bit first.
ghost use Rattle.std.specs.Prelude.{◌≡◌, ◌+◌, ◌*◌, ◌≤◌, ◌<◌, ◌^◌, length, get_or};
ghost use Rattle.rules.specs.Field.{field};
ghost use Rattle.bits.specs.Took.{Took};
ghost use Rattle.bits.specs.CutOut.{CutOut};

// A position in a file, in bits.
#[derive(Clone, Copy, PartialEq, Eq)]
pub struct Cursor {
    pub at: usize,
}

// What stood at a cursor, a field or a record of several, and the cursor after it.
#[derive(Clone, Copy, PartialEq, Eq)]
pub struct Taken<T> {
    pub value: T,
    pub next: Cursor,
}

// The byte at an index, and 0 past the end.
fn byte(file: &[u8], i: usize) -> u8
    ensures { result ≡ get_or file.now i 0 }
{
    file.get(i).copied().unwrap_or(0)
}

// The eight bytes from an index on, all of which are there, as one number. They are joined as the machine has them, the least significant first,
// and then turned round: the compiler takes each of these two steps for one instruction already where it weighs what to copy into callers, so
// that a record's whole reader is copied into the loops that call it. Where they are joined the most significant first, it sees only much later
// that the loads are one.
fn eight_there(file: &[u8], i: usize) -> u64
    requires { i + 8 ≤ length file.now }
    ensures { result ≡ field file.now (i * 8) 64 }
{
    u64::from_le_bytes([
        file[i],
        file[i + 1],
        file[i + 2],
        file[i + 3],
        file[i + 4],
        file[i + 5],
        file[i + 6],
        file[i + 7],
    ])
    .swap_bytes()
}

// The eight bytes from an index on, each asked for by itself. Only the end of a file needs it, so it is kept apart: what calls it stays small
// enough to be copied into every reader.
#[cold]
#[inline(never)]
fn eight_last(file: &[u8], i: usize) -> u64
    requires { i < 2 ^ 60 }
    ensures { result ≡ field file.now (i * 8) 64 }
{
    u64::from_be_bytes(std::array::from_fn(|k| byte(file, i + k)))
}

// The eight bytes from an index on, as one number.
fn eight_bytes(file: &[u8], i: usize) -> u64
    requires { i < 2 ^ 60 }
    ensures { result ≡ field file.now (i * 8) 64 }
{
    if i + 8 <= file.len() {
        return eight_there(file, i);
    }
    eight_last(file, i)
}

impl Cursor {
    // The field of a width at the cursor. Eight bytes hold 57 bits, wherever in the first of them these start. Bits past the end are 0, so that
    // a record is read whole before its length is judged. The bits before the field are shifted out first, so that the second shift is by a
    // constant where the width is one. A field of no bits has a case of its own, since a number isn't shifted by all its 64.
    pub fn take(self, file: &[u8], width: u32) -> Taken<u64>
        requires { (width ≤ 57) × (self.at + width < 2 ^ 62) }
        ensures { Took file.now self.at width result.value result.next.at }
    {
        if width == 0 {
            return Taken {
                value: 0,
                next: self,
            };
        }
        let at = self.at;
        let skip = (at % 8) as u32;
        let word = eight_bytes(file, at / 8) << skip;
        Taken {
            value: word >> (64 - width),
            next: Cursor {
                at: at + width as usize,
            },
        }
    }

    // The cursor past so many records of a width.
    pub fn past(self, count: u64, width: usize) -> Cursor
        requires { self.at + count * width < 2 ^ 64 }
        ensures { result.at ≡ self.at + count * width }
    {
        let at = self.at + count as usize * width;
        Cursor { at }
    }
}

// The field of a width in a group of fields that was taken as one field, with `below` bits of the group after it.
pub fn cut(group: u64, width: u32, below: u32) -> u64
    requires { (width < 64) × (below < 64) }
    ensures { CutOut group width below result }
{
    (group >> below) % (1u64 << width)
}
