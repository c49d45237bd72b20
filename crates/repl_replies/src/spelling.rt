// A reply's bytes: its fields are written one behind another, in the order of their keys as bytes.
ghost use Rattle.std.specs.Prelude.{◌≡◌, ◌++◌, IfOk, OnOk, codes, map, string_bytes};
ghost use Rattle.bencode_wire.specs.Spelling.{canonical, pairs_text, string_text};
ghost use Rattle.bencode_wire.specs.Tree.{list};
ghost use Rattle.repl_replies.specs.Inside.Building.{behind};
ghost use Rattle.repl_replies.specs.Description as told;
ghost use Rattle.repl_replies.specs.Replies as meant;
ghost use Rattle.repl_replies.specs.Replies.{bytes_of, strings};
ghost use Rattle.repl_replies.specs.Inside.View.{field_view, origin_view, body_view, reply_view};

use crate::names::OperationName;
use crate::reply::{Body, Origin, Reply};
use bencode_wire::{Ben, write_into, write_string};
use std::alloc::{AllocError, Global};

// The fields of most replies take no more bytes than these, beside their id, session and text.
const FIRST_ROOM: usize = 96;
// An id of a session in a list takes no more bytes than these.
const ID_ROOM: usize = 40;

/// The reply as a message of the stream: a dictionary with its keys sorted. It fails only for want
/// of memory.
pub fn reply_bytes(alloc: Global, reply: &Reply) -> Result<Vec<u8>, AllocError>
    ensures { IfOk result (λ bytes. bytes.items ≡ bytes_of (reply_view reply.now)) }
{
    reply.origin.reply_bytes(alloc, &reply.body)
}

// Each fails only for want of memory.
impl Origin {
    /// The bytes of a reply to this request that says this.
    pub fn reply_bytes(&self, alloc: Global, body: &Body) -> Result<Vec<u8>, AllocError>
        ensures { IfOk result (λ bytes. bytes.items
            ≡ bytes_of (record { origin = origin_view self.now; body = body_view body.now })) }
    {
        match body {
            Body::UnknownOp(op) => self.unknown_op_bytes(alloc, op),
            Body::NewSession(id) => self.new_session_bytes(alloc, id.as_str()),
            Body::Sessions(ids) => self.sessions_bytes(alloc, ids),
            Body::Described => self.described_bytes(alloc),
            Body::Done => self.status_bytes(alloc, b"6:statusl4:donee"),
            Body::UnknownSession => {
                self.status_bytes(alloc, b"6:statusl5:error15:unknown-session4:donee")
            }
            Body::NoCode => self.status_bytes(alloc, b"6:statusl5:error7:no-code4:donee"),
            Body::NoFile => self.status_bytes(alloc, b"6:statusl5:error7:no-file4:donee"),
            Body::NamespaceNotFound => {
                self.status_bytes(alloc, b"6:statusl5:error19:namespace-not-found4:donee")
            }
            Body::Malformed => self.status_bytes(alloc, b"6:statusl5:error9:malformed4:donee"),
            Body::Closed => self.status_bytes(alloc, b"6:statusl4:done14:session-closede"),
            Body::Interrupted => self.status_bytes(alloc, b"6:statusl4:done11:interruptede"),
        }
    }

    /// The same of a form's value as it is printed, and the namespace after the form.
    pub fn value_bytes(&self, alloc: Global, value: &str, ns: &str) -> Result<Vec<u8>, AllocError>
        ensures { IfOk result (λ bytes. bytes.items ≡ bytes_of
            (record { origin = origin_view self.now; body = meant.value value.now ns.now })) }
    {
        let mut bytes = self.begun(alloc, value.len().saturating_add(ns.len()))?;
        write_given(b"2:id", &self.id, &mut bytes)?;
        write_text(b"2:ns", ns, &mut bytes)?;
        write_given(b"7:session", &self.session, &mut bytes)?;
        write_text(b"5:value", value, &mut bytes)?;
        bytes.extend_from_slice(b"e")?;
        Ok(bytes)
    }

    /// The same of the text that a form printed.
    pub fn output_bytes(&self, alloc: Global, text: &str) -> Result<Vec<u8>, AllocError>
        ensures { IfOk result (λ bytes. bytes.items ≡ bytes_of
            (record { origin = origin_view self.now; body = meant.output text.now })) }
    {
        let mut bytes = self.begun(alloc, text.len())?;
        write_given(b"2:id", &self.id, &mut bytes)?;
        write_text(b"3:out", text, &mut bytes)?;
        write_given(b"7:session", &self.session, &mut bytes)?;
        bytes.extend_from_slice(b"e")?;
        Ok(bytes)
    }

    /// The same of the class of the fault that ended a form.
    pub fn exception_bytes(&self, alloc: Global, class: &str) -> Result<Vec<u8>, AllocError>
        ensures { IfOk result (λ bytes. bytes.items ≡ bytes_of
            (record { origin = origin_view self.now; body = meant.exception class.now })) }
    {
        let text = class_text(alloc, class)?;
        let mut bytes = self.begun(alloc, 0)?;
        write_text(b"2:ex", text.as_str(), &mut bytes)?;
        write_given(b"2:id", &self.id, &mut bytes)?;
        write_text(b"7:root-ex", text.as_str(), &mut bytes)?;
        write_given(b"7:session", &self.session, &mut bytes)?;
        bytes.extend_from_slice(b"6:statusl10:eval-errore")?;
        bytes.extend_from_slice(b"e")?;
        Ok(bytes)
    }

    /// The same of the fault once more, as a line of text.
    pub fn error_text_bytes(&self, alloc: Global, line: &str) -> Result<Vec<u8>, AllocError>
        ensures { IfOk result (λ bytes. bytes.items ≡ bytes_of
            (record { origin = origin_view self.now; body = meant.error_text line.now })) }
    {
        let mut bytes = self.begun(alloc, line.len())?;
        write_text(b"3:err", line, &mut bytes)?;
        write_given(b"2:id", &self.id, &mut bytes)?;
        write_given(b"7:session", &self.session, &mut bytes)?;
        bytes.extend_from_slice(b"e")?;
        Ok(bytes)
    }

    fn unknown_op_bytes(&self, alloc: Global, op: &Option<Ben>) -> Result<Vec<u8>, AllocError>
        ensures { IfOk result (λ bytes. bytes.items ≡ bytes_of (record {
          origin = origin_view self.now;
          body = meant.unknown_op (field_view op.now);
        })) }
    {
        let mut bytes = self.begun(alloc, bytes_in(op))?;
        write_given(b"2:id", &self.id, &mut bytes)?;
        write_given(b"2:op", op, &mut bytes)?;
        write_given(b"7:session", &self.session, &mut bytes)?;
        bytes.extend_from_slice(b"6:statusl5:error10:unknown-op4:donee")?;
        bytes.extend_from_slice(b"e")?;
        Ok(bytes)
    }

    #[tactic(auto, using(crate::proofs::Replies::new_session_spelled))]
    fn new_session_bytes(&self, alloc: Global, id: &str) -> Result<Vec<u8>, AllocError>
        ensures { IfOk result (λ bytes. bytes.items ≡ bytes_of
            (record { origin = origin_view self.now; body = meant.new_session id.now })) }
    {
        let mut bytes = self.begun(alloc, 0)?;
        write_given(b"2:id", &self.id, &mut bytes)?;
        write_text(b"11:new-session", id, &mut bytes)?;
        write_given(b"7:session", &self.session, &mut bytes)?;
        bytes.extend_from_slice(b"6:statusl4:donee")?;
        bytes.extend_from_slice(b"e")?;
        Ok(bytes)
    }

    fn sessions_bytes(&self, alloc: Global, ids: &[String]) -> Result<Vec<u8>, AllocError>
        ensures { IfOk result (λ bytes. bytes.items ≡ bytes_of (record {
          origin = origin_view self.now;
          body = meant.sessions (map string_bytes ids.now);
        })) }
    {
        let mut bytes = self.begun(alloc, ids.len().saturating_mul(ID_ROOM))?;
        write_given(b"2:id", &self.id, &mut bytes)?;
        write_given(b"7:session", &self.session, &mut bytes)?;
        bytes.extend_from_slice(b"8:sessions")?;
        write_ids(ids, &mut bytes)?;
        bytes.extend_from_slice(b"6:statusl4:donee")?;
        bytes.extend_from_slice(b"e")?;
        Ok(bytes)
    }

    fn described_bytes(&self, alloc: Global) -> Result<Vec<u8>, AllocError>
        ensures { IfOk result (λ bytes. bytes.items ≡ bytes_of
            (record { origin = origin_view self.now; body = meant.described })) }
    {
        let mut bytes = self.begun(alloc, 0)?;
        bytes.extend_from_slice(b"3:auxde")?;
        write_given(b"2:id", &self.id, &mut bytes)?;
        bytes.extend_from_slice(b"3:ops")?;
        write_operations(&OperationName::all(), &mut bytes)?;
        write_given(b"7:session", &self.session, &mut bytes)?;
        bytes.extend_from_slice(b"6:statusl4:donee")?;
        bytes.extend_from_slice(b"8:versionsd6:serverd5:majori1e5:minori0eee")?;
        bytes.extend_from_slice(b"e")?;
        Ok(bytes)
    }

    // A reply that has no field but a status.
    fn status_bytes(&self, alloc: Global, status: &[u8]) -> Result<Vec<u8>, AllocError>
        ensures { IfOk result (λ bytes. bytes.items ≡ codes "d"
            ++ behind (codes "2:id") (field_view self.now.id)
            ++ behind (codes "7:session") (field_view self.now.session)
            ++ status.now ++ codes "e") }
    {
        let mut bytes = self.begun(alloc, 0)?;
        write_given(b"2:id", &self.id, &mut bytes)?;
        write_given(b"7:session", &self.session, &mut bytes)?;
        bytes.extend_from_slice(status)?;
        bytes.extend_from_slice(b"e")?;
        Ok(bytes)
    }

    // A dictionary that is begun, with room for the request's id and session and for a text of so
    // many bytes: a long reply is written once, and does not move.
    fn begun(&self, alloc: Global, text: usize) -> Result<Vec<u8>, AllocError>
        ensures { IfOk result (λ bytes. bytes.items ≡ codes "d") }
    {
        let room = FIRST_ROOM
            .saturating_add(text)
            .saturating_add(bytes_in(&self.id))
            .saturating_add(bytes_in(&self.session));
        let mut bytes = Vec::with_capacity(alloc, room)?;
        bytes.extend_from_slice(b"d")?;
        Ok(bytes)
    }
}

// How many bytes a string has: what an id or a session is in most requests.
fn bytes_in(field: &Option<Ben>) -> usize {
    match field {
        Some(Ben::String(bytes)) => bytes.len(),
        _ => 0,
    }
}

// The value behind the spelling of its key, if there is a value.
fn write_given(head: &[u8], value: &Option<Ben>, out: &mut Vec<u8>) -> Result<(), AllocError>
    ensures { OnOk result (out.new.items
        ≡ out.old.items ++ behind head.now (field_view value.now)) }
{
    match value {
        Some(value) => {
            out.extend_from_slice(head)?;
            write_into(value, out)
        }
        None => Ok(()),
    }
}

// The text behind the spelling of its key.
fn write_text(head: &[u8], text: &str, out: &mut Vec<u8>) -> Result<(), AllocError>
    ensures { OnOk result (out.new.items ≡ out.old.items ++ (head.now ++ string_text text.now)) }
{
    out.extend_from_slice(head)?;
    write_string(text.as_bytes(), out)
}

fn class_text(alloc: Global, class: &str) -> Result<String, AllocError>
    ensures { IfOk result (λ text. string_bytes text ≡ codes "class " ++ class.now) }
{
    let mut text = String::from_str(alloc, "class ")?;
    text.push_str(class)?;
    Ok(text)
}

// A list of these ids.
fn write_ids(ids: &[String], out: &mut Vec<u8>) -> Result<(), AllocError>
    ensures { OnOk result (out.new.items
        ≡ out.old.items ++ canonical (list (strings (map string_bytes ids.now)))) }
{
    out.extend_from_slice(b"l")?;
    for id in ids {
        write_string(id.as_bytes(), out)?;
    }
    out.extend_from_slice(b"e")
}

// A dictionary with these operations, and nothing said of them.
fn write_operations(operations: &[OperationName], out: &mut Vec<u8>) -> Result<(), AllocError>
    ensures { OnOk result (out.new.items
        ≡ out.old.items ++ (codes "d" ++ pairs_text (told.ops operations.now) ++ codes "e")) }
{
    out.extend_from_slice(b"d")?;
    for operation in operations {
        write_string(operation.name().as_bytes(), out)?;
        out.extend_from_slice(b"de")?;
    }
    out.extend_from_slice(b"e")
}
