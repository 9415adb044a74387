// A value of 16 bits takes 156 instead of 229 instructions: a number below 10,000 has a text made once, in two forms.
ghost use Rattle.std.specs.Prelude.{◌≤◌};

/// The text of a small number: the first `count` of `digits`, with other octets behind, and in four digits with zeros in
/// front.
#[derive(Clone, Copy)]
pub(crate) struct Short {
    pub digits: [u8; 4],
    pub count: u8,
    pub four: [u8; 4],
    ghost few: { count ≤ 4 },
}
