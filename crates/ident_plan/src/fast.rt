// Variants of a search through pid by probes: first by the only row of an APID.
pub mod kin;
pub mod lone;
