//! Exit statuses.

ghost use Rattle.std.specs.Prelude.{◌≡◌, ◌<◌};
ghost use Rattle.replies.specs.Reply.{refusal_status, reply_status};
ghost use Rattle.replies.specs.View.{reply_of};

use crate::reply::Reply;
use memory::Heap;
use value::Refusal;

fn refusal_status(code: Refusal) -> u8
    ensures status { result ≡ refusal_status code }
    ensures few { result < 8 }
{
    match code {
        Refusal::UndefinedObject => 6,
        Refusal::OutOfMemory => 7,
        _ => 3,
    }
}

/// The exit status of a reply: 0 rows, 3 a refused text, 4 a denial, 5 a fault, 6 an unknown role, 7 out of memory.
pub fn reply_status<A: Heap>(reply: &Reply<A>) -> u8
    ensures status { result ≡ reply_status (reply_of reply.now) }
    ensures few { result < 8 }
{
    match reply {
        Reply::Refused {
            offset: Some(_),
            ..
        } => 3,
        Reply::Refused { code, offset: None } => refusal_status(*code),
        Reply::Denied { .. } => 4,
        Reply::Faulted { .. } => 5,
        Reply::Rows { .. } => 0,
    }
}
