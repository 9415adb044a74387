//! The words of the product: names, rows of the 15 monitoring tables, and in `specs/` every definition that a
//! contract on tables and packets cites. Those of runs stand in `run_model`.
//!
//! Each table is a list of columns there, each rule of decoding a function or a relation over whole lists of rows,
//! and each printed line a text. Nothing here reads, searches or prints; the crates above are proved against it.
//! It rests on `byteorder` for whole octets of a header.
#![tactic(auto)]

mod calibration;
mod check;
mod database;
mod discriminant_width;
mod fault;
mod key;
mod kind;
mod limits;
mod line;
mod line_fault;
mod meaning;
mod name;
mod nature;
mod number;
mod octets;
mod packet;
mod plan;
mod rows;
mod shape;
mod steps;
mod table_row;
mod tables;
mod words;

pub use calibration::Cal;
pub use check::{Change, Class};
pub use database::Database;
pub use discriminant_width::DiscriminantWidth;
pub use fault::{MibCode, MibFault};
pub use key::Key;
pub use kind::{KINDS, Kind};
pub use limits::{
    BIT_LAST, DISCRIMINANT_BITS, DISCRIMINANT_MOST, HELD_MOST, ID_MOST, MOST_VALUES, NAME_SIZE,
    OCTET_LAST, OCTET_MOST, OFFSET_LEAST, OFFSET_MOST, RAW_LEAST, RAW_MOST, RESULT_BOUND, ROW_MOST,
    ROWS_MOST, STEP_BOUND, TABLE_MOST, TEXT_SIZE, TPSD_MOST, WIDTH_MOST, WORD_MOST,
};
pub use line::Line;
pub use line_fault::LineFault;
pub use meaning::{MadeFor, Rows};
pub use name::{Name, Text};
pub use number::{Dec, DecFault, Eng, Over};
pub use packet::{BadWhy, Ended, Found, Header, IDLE_APID, Value};
pub use plan::{CurveRows, Plan, PlanName, Slice, TypeItem};
pub use rows::{
    Bound, CafRow, CapRow, CurRow, LgfRow, McfRow, OcfRow, OcpRow, PcfRow, PicRow, PidRow, PlfRow,
    Row, TpcfRow, TxfRow, TxpRow, VpdRow,
};
pub use shape::{Endian, Order, Shape, Sort};
pub use steps::Steps;
pub use table_row::TableRow;
pub use tables::{TableRows, Tables};
