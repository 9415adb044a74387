//! What contracts say of the objects that a call is handed: files on a shelf, octets that a sink was given, and the tables
//! that a folder holds.
//!
//! Definitions alone, in `specs/`: the views of objects before and behind a call (`Objects`), which database of a folder is
//! accepted (`Sources`), what is said where objects tell their content (`Told`), inputs that were had or not (`Opened`), and objects that
//! didn't fail (`Calm`). They rest on those of `mib_model`, of `session` and of `tm_io`.
#![tactic(auto)]
