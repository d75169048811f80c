#![tactic(auto)]
// The check of a settlement file: breaches 1 to 12.
ghost use Rattle.std.specs.Prelude.{◌≡◌, ◌*◌, ◌≤◌, length, IfOk};
ghost use Rattle.rules.specs.Numbered.{refusal_of};
ghost use Rattle.rules.specs.Refusal.{padding_number, file_refusal};

use bits::Cursor;
use judges::{Dial, ReadLimits};
use records::{Checked, Records};
use rules::{Breach, Day};

// The most bytes of a file.
const MOST_BYTES: usize = 65536;

// The most days between two reads.
const MOST_DAYS: u64 = 3660;

// After the last record: less than a byte is left, and its bits are 0.
#[tactic(auto, unfolding(rules::specs::Refusal::padding_number))]
fn padding(file: &[u8], c: Cursor) -> Result<(), Breach>
    requires { (length file.now ≤ 65536) × (c.at ≤ length file.now * 8) }
    ensures { refusal_of result ≡ padding_number file.now c.at }
{
    let left = file.len() * 8 - c.at;
    if left >= 8 {
        return Err(Breach::Padding);
    }
    let padding = c.take(file, left as u32);
    if padding.value != 0 {
        return Err(Breach::Padding);
    }
    Ok(())
}

// What a file is refused for: its first breach in file order; and else the file as checked. `least`, `lowest` and `earliest` are the least size,
// number and day allowed next, `from` and `until` the days that the next transfer may have.
pub fn check(file: &[u8]) -> Result<Checked, Breach>
    ensures number { refusal_of result ≡ file_refusal file.now }
    ensures checked { IfOk result (λ checked. checked.bytes.now ≡ file.now) }
{
    if file.len() > MOST_BYTES {
        return Err(Breach::FileTooLong);
    }
    let end = file.len() * 8;
    let header = records::header(file);
    let head = header.value;
    judges::header(end, header.next.at, head)?;
    let mut c = header.next;
    'file: {
        let mut least: u64 = 0;
        'bands: for _ in 0..head.bands {
            let band = records::band(file, c);
            if let Err(breach) = judges::band(end, band.next.at, least, band.value) {
                break 'file Err(breach);
            }
            c = band.next;
            least = band.value.size + 1;
        }
        let mut lowest: u64 = 0;
        'points: for _ in 0..head.points {
            let point = records::point(file, c);
            if let Err(breach) = judges::point(end, point.next.at, lowest, point.value) {
                break 'file Err(breach);
            }
            c = point.next;
            lowest = point.value.number + 1;
            let mut from: u64 = 0;
            let mut until = point.value.connected;
            'transfers: for _ in 0..point.value.transfers {
                let transfer = records::transfer(file, c);
                if let Err(breach) = judges::transfer(
                    end,
                    transfer.next.at,
                    from,
                    until,
                    transfer.value,
                ) {
                    break 'file Err(breach);
                }
                c = transfer.next;
                from = transfer.value.day + 1;
                until = Day::NONE.0;
            }
            let mut earliest: u64 = 0;
            'conditions: for _ in 0..point.value.conditions {
                let condition = records::condition(file, c);
                if let Err(breach) = judges::condition(
                    end,
                    condition.next.at,
                    head.service,
                    earliest,
                    condition.value,
                ) {
                    break 'file Err(breach);
                }
                c = condition.next;
                earliest = condition.value.day + 1;
            }
            'meters: for _ in 0..point.value.meters {
                let meter = records::meter(file, c);
                if let Err(breach) = judges::meter(end, meter.next.at, head.service, meter.value) {
                    break 'file Err(breach);
                }
                c = meter.next;
                let dial = Dial::new(meter.value);
                let mut limits = ReadLimits {
                    least: 0,
                    latest: Day::NONE.0,
                    before: 0,
                };
                'reads: for _ in 0..meter.value.reads {
                    let read = records::read(file, c);
                    if let Err(breach) = judges::read(end, read.next.at, dial, limits, read.value) {
                        break 'file Err(breach);
                    }
                    c = read.next;
                    limits = ReadLimits {
                        least: read.value.day + 1,
                        latest: read.value.day + MOST_DAYS,
                        before: read.value.value,
                    };
                }
            }
        }
        padding(file, c)?;
        Ok(Checked {
            bytes: file,
            head,
            bands: Records {
                first: header.next,
                count: head.bands,
            },
        })
    }
}
