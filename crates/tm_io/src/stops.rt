// Positions at which an object in memory fails, each of them once.
ghost use Rattle.std.specs.Prelude.{◌≡◌, ◌≤◌, ◌<◌, ◌+◌, ◌==◌, not};
ghost use Rattle.std.specs.List.{All, filter};
ghost use Rattle.tm_io.specs.Stops.{is_stop, StopsBefore, without};

// Whether the object fails at this position.
pub(crate) fn is_stop_at(stops: &[u64], at: u64) -> bool
    ensures { result ≡ is_stop stops.now at }
{
    stops.contains(&at)
}

// As many of `count` octets from `at` on as pass no stop.
pub(crate) fn count_to_stop(stops: &[u64], at: u64, count: usize) -> usize
    ensures bound { result ≤ count }
    ensures before_stops { StopsBefore stops.now at result }
    ensures some { 0 < count → 0 < result }
{
    let mut fitting = count;
    for stop in stops {
        if *stop > at {
            let room = *stop - at;
            if room < fitting as u64 {
                fitting = room as usize;
            }
        }
    }
    fitting
}

// Takes out a position at which the object has now failed.
pub(crate) fn spend_stop(stops: &mut Vec<u64>, at: u64)
    ensures { stops.new.items ≡ without stops.old.items at }
{
    stops.retain(|stop| *stop != at);
}
