ghost use Rattle.tm_build.specs.Builds.{BuildsWhatIsRight};

/// Where nothing is wrong with what is asked for a call that builds gives the packet, or memory is wanting.
pub fn builds_what_is_right()
    ensures { BuildsWhatIsRight }
{}
