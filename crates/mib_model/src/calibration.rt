use crate::name::Text;
use crate::number::Eng;

/// What a calibration gives for a raw number: an engineering value, a status text, or why there is none.
#[derive(Clone, Copy)]
pub enum Cal<'a> {
    Value(Eng),
    Text(&'a Text),
    /// No range of the texts holds the number.
    NoText,
    /// The number is outside the points, and the curve isn't drawn on past them.
    Outside,
    /// A step or the result leaves the numbers that are kept.
    Over,
    /// The curve is logarithmic.
    LogCurve,
    /// The curve's raw values are real numbers.
    RealCurve,
}
