//! Rows of the 15 monitoring tables, read from their texts and written as lines.
//!
//! What is read is exactly what the definitions of `mib_model` give, the first fault included, unless memory runs
//! out; what is written is read again as the same row. Texts and lines are cut by `csv`, numbers are printed by `itoa`.
#![tactic(auto)]

mod curves;
mod curves_lines;
mod field;
mod fields;
mod forms;
mod keys;
mod laws;
mod line_writer;
mod lines;
mod packets;
mod packets_lines;
mod parameters;
mod parameters_lines;
mod read_fault;
mod row;
mod rows;
mod table;
mod table_fault;
mod write;

pub use laws::written_is_read;
pub use read_fault::ReadFault;
pub use table::{read_key, read_row, read_table};
pub use write::write_row;
