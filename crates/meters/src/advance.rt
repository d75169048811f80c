// An advance by value. It has a file of its own since specs/Meters speaks of it, and what is imported beside a ghost field may not.
ghost use Rattle.meters.specs.Spreadable.{Spreadable};

// So many litres from a day on, before another, of which `parts` ten-thousandths count: share × return.
#[derive(Clone, Copy)]
pub struct Advance {
    pub litres: u64,
    pub parts: u64,
    pub first: u64,
    pub last: u64,
    ghost spreadable: { Spreadable litres parts first last },
}
