use mib_model::Class;

/// What is kept of a parameter: its latest raw number, the class that is spoken of, the run of samples out of limits, and the
/// last checked number, as a count of 10^-12.
#[derive(Clone, Copy)]
pub struct KeptOf {
    pub latest: Option<i128>,
    pub spoken: Option<Class>,
    pub run: u8,
    pub previous: Option<i128>,
}
