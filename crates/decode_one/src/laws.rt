ghost use Rattle.decode_one.specs.Values.{FoundStructuresExist, SoundValues};

/// Over sound tables a packet that is found and names a structure names one that there is.
pub fn found_structures_exist()
    ensures { FoundStructuresExist }
{}

/// Over sound tables the bits of each value are in its packet, its number is a raw number, and its parameter has a plan.
pub fn sound_values()
    ensures { SoundValues }
{}
