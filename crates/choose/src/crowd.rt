// Counts of classes that go round: after the last class comes the first again.
ghost use Rattle.std.specs.Prelude.{◌≡◌, ℕ, ◌+◌, ◌*◌, ◌<◌, ◌≤◌, ◌↔◌, length, IsTrue, MatchOption};
ghost use Rattle.choose.specs.Classes.{class, crowd_at, peak};

// The class of an hour that is less than two periods away. At most one round is taken off, which spares a division.
fn class_of(hour: usize, period: usize) -> usize
    requires { hour < 2 * period }
    ensures value { result ≡ class period hour }
    ensures below { result < period }
{
    if hour < period { hour } else { hour - period }
}

// The count of the class that comes so many hours after a start.
fn count(crowd: &[u8], start: usize, hours: usize) -> u8
    requires start { start < length crowd.now }
    requires hours { hours < length crowd.now }
    ensures { result ≡ crowd_at crowd.now (start + hours) }
{
    let at = class_of(start + hours, crowd.len());
    crowd[at]
}

// Whether that count is at least `bound`.
fn is_reached(crowd: &[u8], start: usize, hours: usize, bound: u8) -> bool
    requires start { start < length crowd.now }
    requires hours { hours < length crowd.now }
    ensures { IsTrue result ↔ (bound ≤ crowd_at crowd.now (start + hours)) }
{
    count(crowd, start, hours) >= bound
}

// The largest count among so many classes from `start` on.
pub(crate) fn peak_from(crowd: &[u8], start: usize, duration: usize) -> u8
    requires start { start < length crowd.now }
    requires duration { duration ≤ length crowd.now }
    ensures { result ≡ peak crowd.now duration start }
{
    (0..duration)
        .map(|k| count(crowd, start, k))
        .max()
        .unwrap_or(0)
}

// Looks for a count of at least `bound` among so many classes from `start` on, from the last one backwards, and tells
// how far from `start` it stands.
pub(crate) fn reaching(crowd: &[u8], start: usize, duration: usize, bound: u8) -> Option<usize>
    requires start { start < length crowd.now }
    requires duration { duration ≤ length crowd.now }
    ensures { MatchOption result
        ((k : ℕ) → k < duration → crowd_at crowd.now (start + k) < bound)
        (λ k. (k < duration) × (bound ≤ crowd_at crowd.now (start + k))) }
{
    (0..duration)
        .rev()
        .find(|&k| is_reached(crowd, start, k, bound))
}
