ghost use Rattle.std.specs.Prelude.{◌≡◌};
ghost use Rattle.mib_model.specs.Kinds.{kind_name, kind_named};

/// The 15 monitoring tables, in their order (SCOS-2000 Database Import ICD, monitoring tables).
#[derive(Clone, Copy, Debug, PartialEq, Eq)]
pub enum Kind {
    /// Parameters.
    Pcf,
    /// Packets.
    Pid,
    /// Criteria by which packets are told apart.
    Pic,
    /// Names of packets.
    Tpcf,
    /// Places of parameters in packets of fixed layout.
    Plf,
    /// Structures of packets of variable layout.
    Vpd,
    /// Selections of a calibration by a condition.
    Cur,
    /// Curves by points.
    Caf,
    /// Points of a curve.
    Cap,
    /// Curves by status texts.
    Txf,
    /// Texts of a curve.
    Txp,
    /// Polynomial curves.
    Mcf,
    /// Logarithmic curves.
    Lgf,
    /// Checks of a parameter.
    Ocf,
    /// Limits of a check.
    Ocp,
}

/// The tables in their order.
pub const KINDS: [Kind; 15] = [
    Kind::Pcf,
    Kind::Pid,
    Kind::Pic,
    Kind::Tpcf,
    Kind::Plf,
    Kind::Vpd,
    Kind::Cur,
    Kind::Caf,
    Kind::Cap,
    Kind::Txf,
    Kind::Txp,
    Kind::Mcf,
    Kind::Lgf,
    Kind::Ocf,
    Kind::Ocp,
];

impl Kind {
    /// The table's name, in lower case.
    pub fn name(self) -> &'static str
        ensures { result.now ≡ kind_name self }
    {
        match self {
            Kind::Pcf => "pcf",
            Kind::Pid => "pid",
            Kind::Pic => "pic",
            Kind::Tpcf => "tpcf",
            Kind::Plf => "plf",
            Kind::Vpd => "vpd",
            Kind::Cur => "cur",
            Kind::Caf => "caf",
            Kind::Cap => "cap",
            Kind::Txf => "txf",
            Kind::Txp => "txp",
            Kind::Mcf => "mcf",
            Kind::Lgf => "lgf",
            Kind::Ocf => "ocf",
            Kind::Ocp => "ocp",
        }
    }

    /// The table of a name: `None` exactly where no table has it.
    pub fn from_name(text: &[u8]) -> Option<Kind>
        ensures { result ≡ kind_named text.now }
    {
        KINDS
            .iter()
            .copied()
            .find(|kind| kind.name().as_bytes() == text)
    }
}
