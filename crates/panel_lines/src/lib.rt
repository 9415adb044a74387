//! What the lines of a desk among several ask for, and the lines of its replies.
//!
//! A desk among several has the lines of a single desk and one more, `take`, and two more replies, `STALE` and `TOOK`; each
//! line of its replies begins with its number. `panel_request_of` and `panel_reply_line` are the definitions' for such a
//! desk. The crate rests on `desk_lines` and `record_text` for what a single desk has too, and takes no memory.
#![tactic(auto)]

mod reply;
mod request;

pub use reply::{PanelReply, panel_reply_line};
pub use request::{PanelLine, panel_request_of};
