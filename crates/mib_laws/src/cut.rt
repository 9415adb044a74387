ghost use Rattle.mib_laws.specs.Cuts.{EachFeedIsCut};

/// Each feed is cut into packets and a rest that begins no further one.
pub fn each_feed_is_cut()
    ensures { EachFeedIsCut }
{}
