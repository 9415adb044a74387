// Variants of finding a place by halving: first where it was found before, of plans that were read ahead.
pub mod ahead;
pub mod guesses;
