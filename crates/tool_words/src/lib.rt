//! The words behind the program's name: the command that they ask for, or what is wrong with them.
//!
//! `request_in` tells the command by its word, lets `clap` part the words behind it into positional words and numbers of
//! workers, and answers exactly as the definitions of `mib_model` say. `board_request_in` and `panel_request_in` do so for the programs that show
//! pages and that have several desks. It rests on those definitions, on `clap`, and on `dec_num` for digits.
#![tactic(auto)]

mod behind;
mod board;
mod line;
mod panel;
mod panel_request;
mod request;

pub use board::{BoardRequest, board_request_in};
pub use panel::panel_request_in;
pub use panel_request::{MOST_DESKS, PanelRequest};
pub use request::{ToolRequest, WordsFault, request_in};
