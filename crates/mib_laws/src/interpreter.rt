ghost use Rattle.mib_laws.specs.Runs.{RunsInParts};

/// The records of packets are those of the first packets, and then those of the others from where the first have left.
pub fn runs_in_parts()
    ensures { RunsInParts }
{}
