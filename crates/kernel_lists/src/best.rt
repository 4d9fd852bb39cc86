// The choice by priority and then by arrival (the arrival is our own choice).
ghost use Rattle.std.specs.Prelude.{◌≡◌, ◌==◌, ◌&&◌, ◌||◌, nat_lt};
ghost use Rattle.kernel_lists.specs.Best.{precedes_in, better_of};

/// How one that may be chosen stands: its priority, of which the highest goes first, and when it came, of which among
/// equals the lowest does.
#[derive(Clone, Copy)]
pub struct Rank {
    pub priority: u32,
    pub arrival: u32,
}

/// The best that was found in a list: its place and its rank.
#[derive(Clone, Copy)]
pub struct Best {
    pub place: usize,
    pub rank: Rank,
}

/// Whether the first goes before the second: it has the higher priority, or the same one and came earlier.
pub fn precedes(rank: Rank, other: Rank) -> bool
    ensures { result ≡ precedes_in rank other }
{
    other.priority < rank.priority
        || (rank.priority == other.priority && rank.arrival < other.arrival)
}

/// The better of what was found and what stands at a place, if that may be chosen. What was found first stays where both
/// are equal.
pub fn better(found: Option<Best>, place: usize, rank: Option<Rank>) -> Option<Best>
    ensures { result ≡ better_of found place rank }
{
    match (found, rank) {
        (_, None) => found,
        (None, Some(rank)) => Some(Best { place, rank }),
        (Some(best), Some(rank)) => {
            if precedes(rank, best.rank) {
                Some(Best { place, rank })
            } else {
                Some(best)
            }
        }
    }
}
