ghost use Rattle.memory_laws.specs.Laws.{AlikeIsSame, AlikeServes, EnteredAlike, FinishedAlike};

/// Memories stay alike where raw numbers are entered, in one of them those alone whose names are asked.
pub fn entering_keeps_alike()
    ensures { EnteredAlike }
{}

/// Alike memories tell the same of the values of a packet and stay alike, and any of them serves in place of another.
pub fn finishing_keeps_alike()
    ensures finished { FinishedAlike }
    ensures serves { AlikeServes }
{}

/// Memories that are alike are the same where all names are asked.
pub fn alike_is_same()
    ensures { AlikeIsSame }
{}
