//! The lines of replies.
ghost use Rattle.std.specs.Prelude.{◌≡◌, ◌≤◌, ◌+◌, ◌++◌, [], length, codes, decimal, Some};
ghost use Rattle.run_model.specs.Replies.{desk_line, reply_text};
ghost use Rattle.mib_model.specs.declared.line.TheConstants.{LINE_ROOM};
ghost use Rattle.panel_lines.specs.Replies.{told};

use mib_model::Line;
use reply_text::{add_number, reply_line};
use run_model::Reply;

/// The answer to a line of a desk among several.
#[derive(Clone, Copy, Debug, PartialEq, Eq)]
pub enum PanelReply {
    /// One that a single desk has too.
    Plain(Reply),
    /// The draft isn't saved, since there is a newer edition than its base; this is the newest.
    Stale { newest: u32 },
    /// The draft is from now on this edition, the newest.
    Took { edition: u32 },
}

// Appends a word of 6 octets at most and a number.
fn add_numbered(word: &[u8], number: u32, out: &mut Line)
    requires word { length word.now ≤ 6 }
    requires room { length out.old + 60 ≤ LINE_ROOM }
    ensures text { out.new ≡ out.old ++ (word.now ++ decimal number) }
    ensures room { length out.new ≤ length out.old + 50 }
{
    out.add(word);
    add_number(number, out);
}

// Appends the line of a reply that a single desk has too.
fn add_plain(reply: &Reply, out: &mut Line)
    requires room { length out.old + 200 ≤ LINE_ROOM }
    ensures text { out.new ≡ out.old ++ reply_text reply.now }
{
    let mut line = Line::new();
    reply_line(reply, &mut line);
    out.add(line.bytes());
}

/// Writes the line of a desk's reply into an empty line; the desk is named by its number.
pub fn panel_reply_line(desk: u8, reply: &PanelReply, out: &mut Line)
    requires { out.old ≡ [] }
    ensures text { out.new ≡ desk_line (Some desk) (told reply.now) }
{
    add_numbered(b"DESK ", u32::from(desk), out);
    out.add(b" ");
    match *reply {
        PanelReply::Plain(reply) => add_plain(&reply, out),
        PanelReply::Stale { newest } => {
            add_numbered(b"STALE ", newest, out);
            out.add(b"\n");
        }
        PanelReply::Took { edition } => {
            add_numbered(b"TOOK ", edition, out);
            out.add(b"\n");
        }
    }
}
