/// How a checked sample stands to the checks of its parameter.
#[derive(Clone, Copy, Debug, PartialEq, Eq)]
pub enum Class {
    Nominal,
    /// Outside a hard limit.
    Hard,
    /// Not one of the expected states.
    Status,
    /// Too far from the sample before.
    Delta,
    /// Outside a soft limit.
    Soft,
}

/// What is told of a parameter after a sample.
#[derive(Clone, Copy, Debug, PartialEq, Eq)]
pub enum Change {
    Alarm(Class),
    Clear(Class),
}
