#![tactic(auto)]
// Prints the rows, the statements and the report of each file of a batch, as `reference cases` does. A line `rows` has the number, the count and
// how many of the entries lent are past the answer and as they were found; then a line for each row, and one for each statement up to the first
// that is refused. A line `report` has the answer and how many of the bytes lent are past it and as they were found; then the report, where one
// was written. At most 80 entries and 65,536 bytes are lent, whatever the batch asks.
use batch::Case;
use rules::{Centipence, Days, Litres, Row};
use std::io::Write;
use std::{array, fmt, io};

// Four charges as a line has them.
#[derive(Clone, Copy)]
struct Charges([Centipence; 4]);

impl fmt::Display for Charges {
    fn fmt<W: fmt::Write>(&self, f: &mut fmt::Formatter<W>) -> fmt::Result {
        let [meter, volumetric, property, roads] = self.0;
        write!(f, "{} {} {} {}", meter.0, volumetric.0, property.0, roads.0)
    }
}

// The most entries that are lent: more than any answer has rows.
const ENTRIES: usize = 80;

// What an entry of the table holds before the call: no row of an answer, and no two alike.
fn row_found(place: usize) -> Row {
    let most = u64::MAX - place as u64;
    Row {
        provider: most,
        days: Days(u64::MAX),
        litres: Litres(most),
        charges: [Centipence(1), Centipence(2), Centipence(3), Centipence(4)],
    }
}

// The most bytes of report space that are lent.
const BYTES: usize = 65536;

// What a byte of the report space holds before the call: no byte of a text, and no two neighbours alike.
fn byte_found(place: usize) -> u8 {
    128 + (place % 127) as u8
}

// How many of those lent are as found, from a place on.
fn kept_from<T: PartialEq>(lent: &[T], found: &[T], from: usize) -> usize {
    lent.iter()
        .zip(found)
        .skip(from)
        .filter(|(one, other)| one == other)
        .count()
}

fn print_rows<W: Write>(out: &mut W, case: Case) -> io::Result<()> {
    let found: [Row; ENTRIES] = array::from_fn(row_found);
    let mut table = found;
    let lent = &mut table[..case.entries.min(ENTRIES)];
    let (number, count) = unit::numbered_rows(unit::rows(case.file, lent));
    let kept = kept_from(lent, &found, count);
    writeln!(out, "rows {number} {count} {kept}")?;
    for row in lent.iter().take(count) {
        writeln!(
            out,
            "row {} {} {} {}",
            row.provider,
            row.days.0,
            row.litres.0,
            Charges(row.charges)
        )?;
    }
    Ok(())
}

// No file has more than 256 points, so that the 257th place is refused.
fn print_statements<W: Write>(out: &mut W, case: Case) -> io::Result<()> {
    for place in 0..257 {
        let (number, s) = unit::numbered_statement(unit::statement(case.file, place));
        writeln!(
            out,
            "statement {place} {number} {} {} {} {} {} {}",
            s.days.0,
            s.litres.0,
            s.disconnected.0,
            s.volume.0,
            s.year_cost.0,
            Charges(s.charges)
        )?;
        if number != 0 {
            break;
        }
    }
    Ok(())
}

// Of the space only what is lent is made as found: a batch may have a great many cases that lend little.
fn print_report<W: Write>(
    out: &mut W,
    found: &[u8; BYTES],
    space: &mut [u8; BYTES],
    case: Case,
) -> io::Result<()> {
    let bytes = case.bytes.min(BYTES);
    let lent = &mut space[..bytes];
    lent.copy_from_slice(&found[..bytes]);
    let answer = unit::settlement_report(case.file, lent);
    let end = answer.unwrap_or(0);
    let kept = kept_from(lent, found, end);
    writeln!(out, "report {} {kept}", unit::one_number(answer))?;
    out.write_all(&lent[..end])
}

fn print_case<W: Write>(
    out: &mut W,
    found: &[u8; BYTES],
    space: &mut [u8; BYTES],
    number: u64,
    case: Case,
) -> io::Result<()> {
    writeln!(out, "case {number}")?;
    print_rows(out, case)?;
    print_statements(out, case)?;
    print_report(out, found, space, case)
}

fn main(rt: HostRuntime) -> io::Result<()> {
    let mut input = rt.stdin();
    let mut out = rt.stdout();
    // `array::from_fn` would take the stack of one more array.
    let mut found = [0u8; BYTES];
    for place in 0..BYTES {
        found[place] = byte_found(place);
    }
    let mut space = [0u8; BYTES];
    batch::for_each_case(&mut input, |number, case| {
        print_case(&mut out, &found, &mut space, number, case)
    })
}
