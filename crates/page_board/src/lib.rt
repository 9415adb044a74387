//! A board on which one end publishes pages, and from which a viewer in another thread takes the last.
//!
//! What a viewer gets is never older than what it got, and never older than a `Note` that it learned. Pages lie as words in a cell
//! of `crossbeam_utils`, under the rule of `specs/Views`: one end publishes, numbers rise, and each end knows a first part of the
//! published pages. What a page is stands in `display_pages`.
#![tactic(auto)]

mod catching;
mod looking;
mod note;
mod publisher;
mod publishing;
mod rule;
mod sheet;
mod view;
mod viewer;

pub use catching::catch_up;
pub use note::Note;
pub use publisher::Publisher;
pub use sheet::{PageWords, empty_sheet, lay_cell, lay_head, page_of};
pub use view::BoardView;
pub use viewer::Viewer;
