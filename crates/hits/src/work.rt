// What every engine carries: the total of hits and the three counts; and the lent list that takes the hits.
ghost use Rattle.std.specs.Prelude.{◌≡◌, ◌+◌, ◌^◌, ◌<◌};
ghost use Rattle.hits.specs.Counts.{tally, noted};

#[derive(Clone, Copy, Debug, PartialEq, Eq, Default)]
pub struct Work {
    pub total: usize,
    pub scan: u64,
    pub shift: u64,
    pub steps: u64,
}

// A turn of an engine whose state is the start alone: whether that start is a hit, the next start, and the tests.
#[derive(Clone, Copy, Debug, PartialEq, Eq)]
pub struct Turned {
    pub hit: bool,
    pub next: usize,
    pub scan: u64,
    pub shift: u64,
}

// Writes a hit after those that are noted, where the list has room, and counts it.
pub fn note(list: &mut [u32], total: usize, at: usize, hit: bool) -> usize
    requires { (total < 2 ^ 32) × (at < 2 ^ 32) }
    ensures { (result ≡ total + tally hit) × (list.new ≡ noted hit list.old total at) }
{
    if !hit {
        return total;
    }
    if total < list.len() {
        list[total] = at as u32;
    }
    total + 1
}
