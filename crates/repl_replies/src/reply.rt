// The replies.
ghost use Rattle.std.specs.Prelude.{◌≡◌, true, IfOk};
ghost use Rattle.bencode_wire.specs.Inside.View.{tree_view};
ghost use Rattle.repl_replies.specs.Replies.{no_origin, described};
ghost use Rattle.repl_replies.specs.Inside.View.{field_view, origin_view, reply_view};

use bencode_wire::Ben;
use std::alloc::{AllocError, Global};

/// What of a request its replies carry: its `id` and `session`, as they came.
#[derive(Drop)]
pub struct Origin {
    pub id: Option<Ben>,
    pub session: Option<Ben>,
}

/// What a reply says. Those that tell of a form are not here: calls of their own make them, of
/// texts that are lent.
#[derive(Drop)]
pub enum Body {
    Done,
    /// The request's `op` is none of those that are served; it is given back.
    UnknownOp(Option<Ben>),
    /// The request names a session that is not open, or none where it has to.
    UnknownSession,
    /// The `code` of an `eval` is missing or is no text.
    NoCode,
    /// The `file` of a `load-file` is missing or is no text.
    NoFile,
    NamespaceNotFound,
    /// The stream has a fault, and nothing more is taken from it.
    Malformed,
    /// The id of the session that was made.
    NewSession(String),
    /// The ids of the open sessions, in the order in which they are listed.
    Sessions(Vec<String>),
    /// The operations that are served, and the server's version.
    Described,
    /// The session that the request names was closed.
    Closed,
    /// The session was closed while the request waited or was evaluated.
    Interrupted,
}

#[derive(Drop)]
pub struct Reply {
    pub origin: Origin,
    pub body: Body,
}

impl Origin {
    /// The origin of a reply that belongs to no request.
    pub fn none() -> Origin
        ensures { origin_view result ≡ no_origin }
    {
        Origin {
            id: None,
            session: None,
        }
    }

    /// The same origin once more. It fails only for want of memory.
    pub fn copy(&self, alloc: Global) -> Result<Origin, AllocError>
        ensures { IfOk result (λ copied. origin_view copied ≡ origin_view self.now) }
    {
        Ok(Origin {
            id: copy_field(alloc, &self.id)?,
            session: copy_field(alloc, &self.session)?,
        })
    }

    /// Whether both are known to be the same. Only strings are compared: an id or a session that is
    /// anything else is not known to be that of the other. It takes no memory.
    pub fn is_same(&self, other: &Origin) -> bool
        ensures { result ≡ true → origin_view self.now ≡ origin_view other.now }
    {
        is_same_field(&self.id, &other.id) && is_same_field(&self.session, &other.session)
    }
}

fn is_same_field(one: &Option<Ben>, other: &Option<Ben>) -> bool
    ensures { result ≡ true → field_view one.now ≡ field_view other.now }
{
    match (one, other) {
        (None, None) => true,
        (Some(Ben::String(text)), Some(Ben::String(same))) => { text.as_slice() == same.as_slice() }
        _ => false,
    }
}

// The same value once more, if there is one.
fn copy_field(alloc: Global, field: &Option<Ben>) -> Result<Option<Ben>, AllocError>
    ensures { IfOk result (λ copied. field_view copied ≡ field_view field.now) }
{
    match field {
        Some(value) => Ok(Some(value.copy(alloc)?)),
        None => Ok(None),
    }
}

/// The reply to a request that asks what is served.
pub fn describe_reply(origin: Origin) -> Reply
    ensures { reply_view result ≡ record { origin = origin_view origin; body = described } }
{
    Reply {
        origin,
        body: Body::Described,
    }
}
