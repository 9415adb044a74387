// Texts without the spaces around them.
ghost use Rattle.std.specs.Prelude.{◌≡◌, reverse};
ghost use Rattle.mib_model.specs.Lines.{trimmed, without_front};

// The octets without the spaces in front of them.
fn trim_front(octets: &[u8]) -> &[u8]
    ensures { result.now ≡ without_front octets.now }
{
    let mut rest = octets;
    while let [b' ', after @ ..] = rest {
        rest = after;
    }
    rest
}

// The octets without the spaces behind them.
fn trim_end(octets: &[u8]) -> &[u8]
    ensures { result.now ≡ reverse (without_front (reverse octets.now)) }
{
    let mut rest = octets;
    while let [before @ .., b' '] = rest {
        rest = before;
    }
    rest
}

/// The octets without the spaces at both ends.
#[tactic(auto, unfolding(mib_model::specs::Lines::trimmed))]
pub fn trim(octets: &[u8]) -> &[u8]
    ensures { result.now ≡ trimmed octets.now }
{
    trim_end(trim_front(octets))
}
