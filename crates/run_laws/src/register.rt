ghost use Rattle.run_laws.specs.Registers.{EditionsOnlyGrow, SeatShowsStamps, StampsCountUp, WhatIsStampedStays};

/// An edition that stands keeps its number and its tables.
pub fn editions_only_grow()
    ensures { EditionsOnlyGrow }
{}

/// The stamps of a history that the register allows are numbered from 1 on, without a gap.
pub fn stamps_count_up()
    ensures { StampsCountUp }
{}

/// The edition of a packet below the next one never changes.
pub fn what_is_stamped_stays()
    ensures { WhatIsStampedStays }
{}

/// The stamps of a history that the register allows are those that the answers of seat 0 show.
pub fn seat_shows_stamps()
    ensures { SeatShowsStamps }
{}
