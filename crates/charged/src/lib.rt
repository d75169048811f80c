#![tactic(auto)]
// The charged days of a supply point: those of the settlement year from its connection day, before its disconnection day. They are numbered from
// 0 on; the number of a day is its entry.
ghost use Rattle.std.specs.Prelude.{◌≡◌, ◌-◌, ◌≤◌, min};
ghost use Rattle.charged.specs.Charged.{ChargedOf};

use rules::{Day, Days};

// So many days from one on. A point may have none.
#[derive(Clone, Copy)]
pub struct Charged {
    pub from: Day,
    pub count: Days,
}

// The charged days in a year's file of a point with these days of connection and disconnection.
pub fn charged_days(year: u64, connected: u64, disconnected: u64) -> Charged
    requires { (2020 ≤ year) × (year ≤ 2098) }
    ensures { ChargedOf year connected disconnected result }
{
    let from = Day::first_of_year(year).max(Day(connected));
    let end = Day::first_of_year(year + 1).min(Day(disconnected));
    Charged {
        from,
        count: Days(end.0.saturating_sub(from.0)),
    }
}

impl Charged {
    // The entry of a day: 0 before the first, and their count after the last.
    pub fn entry(self, day: u64) -> usize
        ensures { result ≡ min (day - self.from.0) self.count.0 }
    {
        day.saturating_sub(self.from.0).min(self.count.0) as usize
    }
}
