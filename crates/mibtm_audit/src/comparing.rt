// A text beside what is expected of a feed, up to the first difference.
ghost use Rattle.std.specs.Prelude.{◌≡◌, ◌≤◌, ◌+◌, ℕ, List, [], None, length, vec_len, IfNone, IfOk};
ghost use Rattle.packet_feed.specs.Feed.{source_of};
ghost use Rattle.packet_feed.specs.declared.feed.TheConstants.{PACKET_SIZE};
ghost use Rattle.tm_audit.specs.Audit.{refused};
ghost use Rattle.tm_audit.specs.declared.code.TheConstants.{TEXT_MOST};
ghost use Rattle.tm_io.specs.Causes.{RisesWhere};
ghost use Rattle.mibtm_audit.specs.Comparing.{Comes, Compares, HasNextFault, is_feed_fault};
ghost use Rattle.mibtm_audit.specs.Courses.{Against, IsUnderway, Stands};

use crate::audit::Audit;
use packet_feed::{Feed, Next, PACKET_SIZE};
use row_searches::RowSearches;
use std::alloc::{AllocError, Global};
use tm_audit::AuditCode;
use tm_io::Source;

// Expects what a feed has next, unless the text parts already. Where an audit doesn't go on it tells what is found.
fn expect_next<F: Source>(
    alloc: Global,
    audit: &mut Audit<'_>,
    feed: &mut Feed<F>,
    buffer: &mut [u8],
) -> Option<AuditCode>
    requires room { length buffer.old ≡ PACKET_SIZE }
    requires underway { IsUnderway audit.old }
    ensures comes { (a : Against) (packets : List (List ℕ)) → Stands a packets audit.old
        → Comes result a packets audit.new (F.left (source_of feed.old)) (F.left (source_of feed.new)) }
    ensures counted { IfNone result ((audit.old.packets ≤ TEXT_MOST) × (audit.new.packets ≡ audit.old.packets + 1)) }
    ensures cause { HasNextFault result (F.faults (source_of feed.old)) (F.faults (source_of feed.new)) }
    ensures missed { F.missed (source_of feed.new) ≡ F.missed (source_of feed.old) }
    ensures borrow { F.borrow (source_of feed.new) ≡ F.borrow (source_of feed.old) }
{
    if audit.is_apart() {
        return Some(audit.found());
    }
    match feed.next(buffer) {
        Next::Packet { octets, header } => {
            match audit.expect_packet(alloc, &header, &buffer[..octets as usize]) {
                Ok(()) => None,
                Err(AllocError) => Some(AuditCode::Want),
            }
        }
        Next::End => Some(audit.found()),
        Next::Cut { octets } => {
            audit.expect_rest(octets);
            Some(audit.found())
        }
        Next::Failed => Some(AuditCode::FeedFault),
    }
}

// Expects all that a feed has, up to the first difference.
fn expect_all<F: Source>(
    alloc: Global,
    audit: &mut Audit<'_>,
    feed: &mut Feed<F>,
    buffer: &mut [u8],
) -> AuditCode
    requires room { length buffer.old ≡ PACKET_SIZE }
    requires underway { IsUnderway audit.old }
    ensures compares { (a : Against) → Stands a [] audit.old
        → Compares result a (F.left (source_of feed.old)) (F.left (source_of feed.new)) }
    ensures cause { RisesWhere (is_feed_fault result) (F.faults (source_of feed.old)) (F.faults (source_of feed.new)) }
    ensures missed { F.missed (source_of feed.new) ≡ F.missed (source_of feed.old) }
    ensures borrow { F.borrow (source_of feed.new) ≡ F.borrow (source_of feed.old) }
{
    loop {
        if let Some(code) = expect_next(alloc, audit, feed, buffer) {
            return code;
        }
    }
}

// A buffer for a packet.
fn packet_buffer(alloc: Global) -> Result<Vec<u8>, AllocError>
    ensures { IfOk result (λ buffer. vec_len buffer ≡ PACKET_SIZE) }
{
    Vec::from_elem(alloc, 0, PACKET_SIZE)
}

/// Compares a text, which isn't refused by itself, with what is expected of the packets that a feed has left, by the rows of
/// edition 1 and of all editions.
pub(crate) fn compare<F: Source>(
    alloc: Global,
    first: &RowSearches,
    saved: &[RowSearches],
    text: &[u8],
    feed: &mut F,
) -> AuditCode
    requires some { 1 ≤ length saved.now }
    requires few { length saved.now ≤ 64 }
    requires admitted { refused (length saved.now) text.now ≡ None }
    ensures compares { Compares result (record { first = first.now; saved = saved.now; text = text.now }) (F.left feed.old) (F.left feed.new) }
    ensures cause { RisesWhere (is_feed_fault result) (F.faults feed.old) (F.faults feed.new) }
    ensures missed { F.missed feed.new ≡ F.missed feed.old }
{
    let Ok(mut buffer) = packet_buffer(alloc) else {
        return AuditCode::Want;
    };
    let Ok(mut audit) = Audit::new(alloc, first, saved, text) else {
        return AuditCode::Want;
    };
    let mut feed = Feed::new(feed);
    expect_all(alloc, &mut audit, &mut feed, &mut buffer)
}
