// Two points of a curve, and the line between them.
use crate::fast::slope::Slope;
use dec_num::Point;

/// Two points, and the slope of the line from one to the other where it is at hand.
#[derive(Clone, Copy)]
pub(crate) struct Pair {
    pub p: Point,
    pub q: Point,
    pub slope: Option<Slope>,
}
