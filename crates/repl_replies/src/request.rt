// What a message asks for.
ghost use Rattle.std.specs.Prelude.{◌≡◌, if◌then◌else◌, codes};
ghost use Rattle.bencode_wire.specs.Inside.View.{entries_view};
ghost use Rattle.repl_replies.specs.Replies.{unknown_op};
ghost use Rattle.repl_replies.specs.Inside.Requests.{request_or_reply, is_this_string, for_session};
ghost use Rattle.repl_replies.specs.Inside.Requests.{refused};
ghost use Rattle.repl_replies.specs.Inside.View.{field_view, origin_view, body_view};
ghost use Rattle.repl_replies.specs.Inside.View.{request_or_reply_view};

use crate::fields::text_of;
use crate::reply::{Body, Origin, Reply};
use bencode_wire::{Ben, Dictionary, take_field};

/// A request to evaluate.
#[derive(Drop)]
pub struct Request {
    pub origin: Origin,
    pub code: String,
    /// The namespace that the request names, as it came.
    pub ns: Option<Ben>,
}

/// A message is a request that waits, or is answered at once.
#[derive(Drop)]
pub enum RequestOrReply {
    Waits(Request),
    Answered(Reply),
}

/// Reads a message. The operation is looked at first, then the session, then the code. Keys that
/// are not known are ignored.
pub fn request_of(mut message: Dictionary) -> RequestOrReply
    ensures { request_or_reply_view result ≡ request_or_reply (entries_view message.entries) }
{
    let op = take_field(&mut message, b"op");
    let code = take_field(&mut message, b"code");
    let ns = take_field(&mut message, b"ns");
    let id = take_field(&mut message, b"id");
    let session = take_field(&mut message, b"session");
    request_of_fields(op, code, ns, Origin { id, session })
}

fn request_of_fields(
    op: Option<Ben>,
    code: Option<Ben>,
    ns: Option<Ben>,
    origin: Origin,
) -> RequestOrReply
    ensures { request_or_reply_view result ≡ (if is_this_string (codes "eval") (field_view op)
        then for_session (origin_view origin) (field_view code) (field_view ns)
        (field_view origin.session)
        else refused (origin_view origin) (unknown_op (field_view op))) }
{
    if !is_eval(&op) {
        return answer_at_once(origin, Body::UnknownOp(op));
    }
    if origin.session.is_some() {
        return answer_at_once(origin, Body::UnknownSession);
    }
    match text_of(code) {
        Some(code) => RequestOrReply::Waits(Request { origin, code, ns }),
        None => answer_at_once(origin, Body::NoCode),
    }
}

fn answer_at_once(origin: Origin, body: Body) -> RequestOrReply
    ensures { request_or_reply_view result ≡ refused (origin_view origin) (body_view body) }
{
    RequestOrReply::Answered(Reply { origin, body })
}

fn is_eval(op: &Option<Ben>) -> bool
    ensures { result ≡ is_this_string (codes "eval") (field_view op.now) }
{
    match op {
        Some(Ben::String(name)) => name.as_slice() == b"eval".as_slice(),
        _ => false,
    }
}
