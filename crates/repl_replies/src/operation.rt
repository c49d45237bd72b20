// What a message asks for, where sessions may be open.
ghost use Rattle.std.specs.Prelude.{◌≡◌, IfOk};
ghost use Rattle.std.specs.Option.{ForSome};
ghost use Rattle.std.specs.Result.{result_map_both};
ghost use Rattle.bencode_wire.specs.Inside.View.{entries_view};
ghost use Rattle.repl_replies.specs.Operations as meant;
ghost use Rattle.repl_replies.specs.Inside.Named.{session_of, IsNamed};
ghost use Rattle.repl_replies.specs.Inside.View.{field_view, origin_view, body_view, reply_view};
ghost use Rattle.repl_replies.specs.Inside.View.{operation_view, asked_view};

use crate::fields::text_of;
use crate::names::OperationName;
use crate::open_sessions::OpenSessions;
use crate::reply::{Body, Origin, Reply};
use bencode_wire::{Ben, Dictionary, take_field};

/// An operation, with the number of the open session that the request names.
#[derive(Drop)]
pub enum Operation {
    /// A new session, with the state of this one or a fresh one.
    Clone {
        session: Option<u64>,
    },
    Close {
        session: u64,
    },
    Describe {
        session: Option<u64>,
    },
    ListSessions {
        session: Option<u64>,
    },
    Eval {
        session: Option<u64>,
        code: String,
        /// The namespace that the request names, as it came.
        ns: Option<Ben>,
    },
    LoadFile {
        session: Option<u64>,
        /// The text of the file.
        file: String,
    },
}

/// A request that is served.
#[derive(Drop)]
pub struct Asked {
    pub origin: Origin,
    pub operation: Operation,
}

/// Reads a message: what it asks for, or else the reply to it. The operation is looked at first,
/// then the session, then the code or the file. Keys that are not known are ignored. It takes no
/// memory.
pub fn operation_of<S: OpenSessions>(mut message: Dictionary, sessions: &S) -> Result<Asked, Reply>
    ensures asked { result_map_both asked_view reply_view result
        ≡ meant.operation_or_reply (S.number sessions.now) (entries_view message.entries) }
    // The session of an operation is one that the request names.
    ensures named { IfOk result (λ asked.
        ForSome (session_of (operation_view asked.operation)) (IsNamed (S.number sessions.now))) }
{
    let id = take_field(&mut message, b"id");
    let session = take_field(&mut message, b"session");
    let op = take_field(&mut message, b"op");
    let origin = Origin { id, session };
    let operation = served_operation(message, op, &origin.session, sessions);
    of_origin(origin, operation)
}

fn of_origin(origin: Origin, served: Result<Operation, Body>) -> Result<Asked, Reply>
    ensures { result_map_both asked_view reply_view result
        ≡ meant.of_origin (origin_view origin) (result_map_both operation_view body_view served) }
{
    match served {
        Ok(operation) => Ok(Asked { origin, operation }),
        Err(body) => Err(Reply { origin, body }),
    }
}

fn served_operation<S: OpenSessions>(
    message: Dictionary,
    op: Option<Ben>,
    session: &Option<Ben>,
    sessions: &S,
) -> Result<Operation, Body>
    ensures { result_map_both operation_view body_view result
        ≡ (let name = field_view op in
        meant.served_operation (entries_view message.entries) name (meant.operation_of_op name)
        (meant.session_in (S.number sessions.now) (field_view session.now))) }
{
    match operation_of_op(&op) {
        Some(operation) => operation_in(message, operation, session_in(session, sessions)?),
        None => Err(Body::UnknownOp(op)),
    }
}

fn operation_of_op(op: &Option<Ben>) -> Option<OperationName>
    ensures { result ≡ meant.operation_of_op (field_view op.now) }
{
    match op {
        Some(Ben::String(name)) => OperationName::named(name),
        _ => None,
    }
}

// The number of the session that is named, if one is. It has to be open.
fn session_in<S: OpenSessions>(session: &Option<Ben>, sessions: &S) -> Result<Option<u64>, Body>
    ensures { result_map_both (λ number. number) body_view result
        ≡ meant.session_in (S.number sessions.now) (field_view session.now) }
{
    match session {
        None => Ok(None),
        Some(Ben::String(id)) => Ok(Some(sessions.number_of(id).ok_or(Body::UnknownSession)?)),
        Some(_) => Err(Body::UnknownSession),
    }
}

fn operation_in(
    mut message: Dictionary,
    operation: OperationName,
    session: Option<u64>,
) -> Result<Operation, Body>
    ensures { result_map_both operation_view body_view result
        ≡ meant.operation_in (entries_view message.entries) operation session }
{
    match operation {
        OperationName::Clone => Ok(Operation::Clone { session }),
        OperationName::Close => Ok(Operation::Close {
            session: session.ok_or(Body::UnknownSession)?,
        }),
        OperationName::Describe => Ok(Operation::Describe { session }),
        OperationName::Eval => {
            let code = text_of(take_field(&mut message, b"code")).ok_or(Body::NoCode)?;
            let ns = take_field(&mut message, b"ns");
            Ok(Operation::Eval { session, code, ns })
        }
        OperationName::LoadFile => Ok(Operation::LoadFile {
            session,
            file: text_of(take_field(&mut message, b"file")).ok_or(Body::NoFile)?,
        }),
        OperationName::ListSessions => Ok(Operation::ListSessions { session }),
    }
}
