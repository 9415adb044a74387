// Variants of writing numbers, engineering values and texts digit by digit and octet by octet.
pub mod count;
pub mod number;
pub mod short;
pub mod short_texts;
pub mod stand;
