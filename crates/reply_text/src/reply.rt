// The lines of replies.
ghost use Rattle.std.specs.Prelude.{◌≡◌, ◌≤◌, ◌+◌, ◌++◌, [], length, codes};
ghost use Rattle.run_model.specs.Replies as Spec;
ghost use Rattle.mib_model.specs.declared.line.TheConstants.{LINE_ROOM};

use crate::fault::{add_fault, add_number, add_number_behind, fault_word};
use itoa::Integer;
use mib_model::Line;
use run_model::Reply;

// Appends a word of 13 octets at most and a number.
fn add_numbered<I: Integer>(word: &[u8], n: I, out: &mut Line)
    requires word { length word.now ≤ 13 }
    requires room { length out.old + 53 ≤ LINE_ROOM }
    ensures text { out.new ≡ out.old ++ word.now ++ I.text n }
    ensures room { length out.new ≤ length out.old + 53 }
{
    out.add(word);
    add_number(n, out);
}

// Appends the text of a reply, without its line feed.
#[tactic(auto, unfolding(run_model::specs::Replies::reply_words))]
fn add_words(reply: &Reply, out: &mut Line)
    requires { length out.old + 150 ≤ LINE_ROOM }
    ensures text { out.new ≡ out.old ++ Spec.reply_words reply.now }
    ensures room { length out.new ≤ length out.old + 150 }
{
    match *reply {
        Reply::TooLong => out.add(b"TOOLONG"),
        Reply::BadLine => out.add(b"BADLINE"),
        Reply::BadTable => out.add(b"BADTABLE"),
        Reply::BadRow { code, column } => {
            out.add(b"BADROW ");
            out.add(fault_word(code));
            add_number_behind(u32::from(column), out);
        }
        Reply::Added => out.add(b"ADDED"),
        Reply::Replaced => out.add(b"REPLACED"),
        Reply::Deleted => out.add(b"DELETED"),
        Reply::NoRow => out.add(b"NOROW"),
        Reply::Saved { edition, plans } => {
            add_numbered(b"SAVED ", edition, out);
            add_numbered(b" PLANS ", plans, out);
        }
        Reply::Unsound(fault) => {
            out.add(b"UNSOUND ");
            add_fault(&fault, out);
        }
        Reply::FullEditions => out.add(b"FULL EDITIONS 64"),
        Reply::Dropped => out.add(b"DROPPED"),
        Reply::Used { edition, from } => {
            add_numbered(b"USED ", edition, out);
            add_numbered(b" FROM ", from, out);
        }
        Reply::NoEdition { count } => add_numbered(b"NOEDITION ", count, out),
        Reply::Late { next } => add_numbered(b"LATE ", next, out),
        Reply::Disorder { last } => add_numbered(b"DISORDER ", last, out),
        Reply::FullPending => out.add(b"FULL PENDING 16"),
        Reply::Go => out.add(b"GO"),
        Reply::Want => out.add(b"WANT"),
        Reply::Limit => out.add(b"LIMIT"),
    }
}

/// Writes the line of a reply into an empty line.
pub fn reply_line(reply: &Reply, out: &mut Line)
    requires { out.old ≡ [] }
    ensures text { out.new ≡ Spec.reply_text reply.now }
    ensures room { length out.new ≤ 151 }
{
    add_words(reply, out);
    out.add(b"\n");
}
