// Variants of looking by halving, and of the line that is divided at each raw number: where an index says, and by a quotient that is taken once.
pub(crate) mod index;
pub(crate) mod points;
pub(crate) mod ranges;
pub(crate) mod slope;
