// A value on a line takes 401 instead of 618 instructions: a rise between points whose numbers are small is divided once, when the curve is compiled.
ghost use Rattle.std.specs.Prelude.{◌≡◌, ◌≤◌, ◌<◌, ◌<ℤ◌, ◌+◌, ◌*◌, ◌/◌, ◌^◌, ◌+ℤ◌, ◌-ℤ◌, pos, nat_abs, IfSome, OnSome};
ghost use Rattle.mib_model.specs.Decimals.{with_sign};
ghost use Rattle.curve_plan.specs.Knots.{knot_at};
ghost use Rattle.curve_plan.specs.Slopes.{climbed, rise_of, IsLine, IsOnLine, IsSlope};

use dec_num::Point;
use mib_model::Eng;

/// How a line goes from a point to another: the point, the numbers between them, whether it falls, and the quotient and the
/// rest of what it rises by those numbers.
#[derive(Clone, Copy)]
pub struct Slope {
    x: i64,
    y: i64,
    whole: u64,
    rest: u32,
    run: u32,
    falls: bool,
}

// The whole number nearest to a quotient; a tie goes up.
#[tactic(auto, using(dec_num::proofs::RoundingFacts::nearest))]
fn rounded(dividend: u64, divisor: u64) -> u64
    requires { 0 < divisor }
    ensures value { result ≡ (2 * dividend + divisor) / (2 * divisor) }
    ensures within { result ≤ dividend }
{
    let rest = dividend % divisor;
    dividend / divisor + u64::from(divisor - rest <= rest)
}

// The slope of a line by its first point, the numbers to the second and the engineering value there.
#[tactic(auto, using(crate::proofs::SlopeFacts::rises))]
fn slope_by(x: i64, run: u32, first: i64, last: i64) -> Slope
    requires some { 0 < run }
    requires small { nat_abs (last -ℤ first) < 2 ^ 63 }
    ensures x { result.x ≡ x }
    ensures y { result.y ≡ first }
    ensures run { result.run ≡ run }
    ensures rise { last -ℤ first ≡ with_sign result.falls (rise_of result) }
    ensures rest { result.rest < run }
    ensures small { rise_of result < 2 ^ 63 }
{
    let rise = last.abs_diff(first);
    Slope {
        x,
        y: first,
        whole: rise / u64::from(run),
        rest: (rise % u64::from(run)) as u32,
        run,
        falls: last < first,
    }
}

// The numbers of 64 bits of a line through two points: the first point, and the engineering value at the second.
fn line_words(p: Point, q: Point) -> Option<(i64, i64, i64)>
    ensures { IfSome result (λ line. (line.0 ≡ p.x) × (line.1 ≡ p.y.count) × (line.2 ≡ q.y.count)) }
{
    match (
        i64::try_from(p.x),
        i64::try_from(p.y.count),
        i64::try_from(q.y.count),
    ) {
        (Ok(x), Ok(first), Ok(last)) => Some((x, first, last)),
        _ => None,
    }
}

/// The slope of the line through two points, where the first point, the engineering values and their difference fit 64 bits
/// and the numbers between them 32.
pub fn slope_of(p: Point, q: Point) -> Option<Slope>
    requires { p.x <ℤ q.x }
    ensures { IfSome result (λ slope. IsSlope (knot_at p) (knot_at q) slope) }
{
    let (x, first, last) = line_words(p, q)?;
    match u32::try_from(q.x.abs_diff(p.x)) {
        Ok(run) if last.abs_diff(first) < 1 << 63 => { Some(slope_by(x, run, first, last)) }
        _ => None,
    }
}

impl Slope {
    // How far the line climbs in so many numbers.
    #[inline(always)]
    #[tactic(auto, using(crate::proofs::SlopeFacts::climbs))]
    fn climb(&self, numbers: u32) -> u64
        requires numbers { numbers ≤ self.now.run }
        requires rest { self.now.rest < self.now.run }
        requires small { rise_of self.now < 2 ^ 64 }
        ensures climbed { result ≡ climbed numbers (rise_of self.now) self.now.run }
        ensures within { result ≤ rise_of self.now }
    {
        let rest = rounded(
            u64::from(numbers) * u64::from(self.rest),
            u64::from(self.run),
        );
        u64::from(numbers) * self.whole + rest
    }

    // The count so many numbers behind the line's first point.
    #[inline(always)]
    fn count(&self, numbers: u32) -> i64
        requires numbers { numbers ≤ self.now.run }
        requires line { IsLine self.now }
        ensures { result ≡ self.now.y +ℤ with_sign self.now.falls (climbed numbers (rise_of self.now) self.now.run) }
    {
        let climb = self.climb(numbers) as i64;
        if self.falls {
            self.y - climb
        } else {
            self.y + climb
        }
    }

    /// The value of a raw number on the line, where it lies from the first point to the second.
    pub fn value_at(&self, raw: i64) -> Option<Eng>
        requires { IsLine self.now }
        ensures { IfSome result (λ value. IsOnLine self.now raw value.count) }
    {
        if raw < self.x {
            return None;
        }
        let numbers = raw.abs_diff(self.x);
        if u64::from(self.run) < numbers {
            return None;
        }
        Some(Eng {
            count: i128::from(self.count(numbers as u32)),
        })
    }

    /// The value of a raw number on the line, where it lies from the first point to before the second.
    #[inline(always)]
    pub fn value_before(&self, raw: i64) -> Option<Eng>
        requires { IsLine self.now }
        ensures value { IfSome result (λ value. IsOnLine self.now raw value.count) }
        ensures before { OnSome result (raw <ℤ (self.now.x +ℤ pos self.now.run)) }
    {
        if raw < self.x {
            return None;
        }
        let numbers = raw.abs_diff(self.x);
        if u64::from(self.run) <= numbers {
            return None;
        }
        Some(Eng {
            count: i128::from(self.count(numbers as u32)),
        })
    }
}
