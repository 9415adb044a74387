// Requests that edit a draft, and make no entry.
ghost use Rattle.std.specs.Prelude.{◌≡◌, false, Some, IfErr, IfOk, OnErr};
ghost use Rattle.desk.specs.Handling.{Edits, enters, needed};
ghost use Rattle.desk.specs.Refusals.{refusal_of};
ghost use Rattle.desk_lines.specs.Requests.{asked};
ghost use Rattle.run_model.specs.DeskLines as Spec;

use crate::draft::Draft;
use desk_lines::Request;
use mib_model::Kind;
use mib_rows::{ReadFault, read_key, read_row};
use mib_tables::{DelFault, Put};
use run_model::Reply;
use std::alloc::Global;

/// A request that makes an entry into the register.
#[derive(Clone, Copy)]
pub enum Entering {
    Save,
    Use { edition: u32 },
    UseFrom { edition: u32, from: u64 },
}

// The reply to a row or a key that wasn't read.
fn refusal(fault: ReadFault) -> Reply
    ensures { result ≡ refusal_of fault }
{
    match fault {
        ReadFault::Mib(fault) => Reply::BadRow {
            code: fault.code,
            column: fault.column,
        },
        ReadFault::Memory => Reply::Want,
    }
}

// Puts a row into a draft.
fn put(draft: &mut Draft, alloc: Global, table: Kind, row: &[u8]) -> Reply
    ensures { Edits (Spec.Put table row.now) draft.old (Some result) draft.new }
{
    let row = match read_row(alloc, table, row) {
        Ok(row) => row,
        Err(fault) => return refusal(fault),
    };
    match draft.put(table, row) {
        Ok(Put::Added) => Reply::Added,
        Ok(Put::Replaced) => Reply::Replaced,
        Err(_) => Reply::Want,
    }
}

// Takes the first row with a key out of a draft.
fn delete(draft: &mut Draft, alloc: Global, table: Kind, key: &[u8]) -> Reply
    ensures { Edits (Spec.Delete table key.now) draft.old (Some result) draft.new }
{
    let key = match read_key(alloc, table, key) {
        Ok(key) => key,
        Err(fault) => return refusal(fault),
    };
    match draft.del(table, &key) {
        Ok(()) => Reply::Deleted,
        Err(DelFault::NoRow) => Reply::NoRow,
        Err(DelFault::Memory) => Reply::Want,
    }
}

// Gives a draft the rows that it was made from.
fn restore(draft: &mut Draft) -> Reply
    ensures { Edits Spec.Drop draft.old (Some result) draft.new }
{
    match draft.restore() {
        Ok(()) => Reply::Dropped,
        Err(_) => Reply::Want,
    }
}

/// Does with a draft what is asked for, and gives the reply, which a comment has not; or gives what the register is needed for.
pub fn edit(
    draft: &mut Draft,
    alloc: Global,
    request: Request<'_>,
) -> Result<Option<Reply>, Entering>
    ensures edits { IfOk result (λ given. Edits (asked request.entry) draft.old given draft.new) }
    ensures unentered { IfOk result (λ given. enters (asked request.entry) ≡ false) }
    ensures needed { IfErr result (λ entering. needed entering ≡ asked request.entry) }
    ensures kept { OnErr result (draft.new ≡ draft.old) }
{
    match request {
        Request::Comment => Ok(None),
        Request::TooLong => Ok(Some(Reply::TooLong)),
        Request::BadLine => Ok(Some(Reply::BadLine)),
        Request::BadTable => Ok(Some(Reply::BadTable)),
        Request::Put { table, row } => Ok(Some(put(draft, alloc, table, row))),
        Request::Delete { table, key } => Ok(Some(delete(draft, alloc, table, key))),
        Request::Save => Err(Entering::Save),
        Request::Drop => Ok(Some(restore(draft))),
        Request::Use { edition } => Err(Entering::Use { edition }),
        Request::UseFrom { edition, from } => Err(Entering::UseFrom { edition, from }),
        Request::Go => Ok(Some(Reply::Go)),
    }
}
