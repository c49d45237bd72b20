// A request is opened: its text is read.
ghost use Rattle.std.specs.Prelude.{◌≡◌, option_map, option_and_then, Some, string_bytes, IfOk};
ghost use Rattle.std.specs.Arc.{arc_value, arc_str_bytes};
ghost use Rattle.bencode_wire.specs.Inside.View.{tree_view};
ghost use Rattle.repl_values.specs.Inside.FaultView.{failure_of};
ghost use Rattle.repl_reader.specs.Inside.View.{fault_option};
ghost use Rattle.repl_replies.specs.Inside.View.{origin_view, field_view};
ghost use Rattle.repl_sessions.specs.Inside.StateView.{state_view};
ghost use Rattle.name_spaces.specs.Inside.Seen.{namespaces_of};
ghost use Rattle.server_rules.specs.Readings.{Readings, AreRight};
ghost use Rattle.server_rules.specs.Starting.{hand_of, namespace_there};
ghost use Rattle.server_rules.specs.Readings.{text_failure};
ghost use Rattle.tenant_parts.specs.View.{manner_view, waiting_view};
ghost use Rattle.tenant_moves.specs.Opening.{opened_hand, opened_code, opened_elsewhere};
ghost use Rattle.tenant_moves.specs.Opening.{opened_view, named_namespace, text_in};

use bencode_wire::Ben;
use name_spaces::Spaces;
use repl_reader::laws::readings_are_unique;
use repl_reader::{ProgramForms, ReaderFault};
use repl_replies::Origin;
use repl_sessions::SessionState;
use repl_values::{Fault, Value, copy_text};
use std::alloc::{AllocError, Global};
use std::collections::VecDeque;
use std::sync::{Arc, ArcStr};
use tenant_parts::{Aside, Manner, ProgramText, Waiting, WorkInHand};

/// A request whose text was read.
#[derive(Drop)]
pub enum OpenedRequest {
    WorkInHand(WorkInHand),
    /// It names a namespace that is not there.
    NamespaceNotFound,
}

/// Reads the text of a request, whose session has this state, unless it was read before. It fails
/// only for want of memory.
pub fn open_request(
    alloc: Global,
    spaces: &Spaces,
    waiting: &Waiting,
    state: &SessionState,
    aside: &mut Aside,
) -> Result<OpenedRequest, AllocError>
    ensures { (r : Readings) → AreRight r → IfOk result (λ made. opened_view made
        ≡ opened_hand r (namespaces_of spaces.now) (waiting_view waiting.now).origin
        (state_view state.now) (waiting_view waiting.now).text) }
{
    match &waiting.text {
        ProgramText::Code { text, ns } => {
            open_code(alloc, spaces, &waiting.origin, text, ns, state, aside)
        }
        ProgramText::File(text) => {
            let manner = Manner::LastForm(Value::Nil);
            open_in(
                alloc,
                &waiting.origin,
                manner,
                &state.namespace,
                text,
                aside,
            )
        }
    }
}

fn open_code(
    alloc: Global,
    spaces: &Spaces,
    origin: &Arc<Origin>,
    text: &String,
    ns: &Option<Ben>,
    state: &SessionState,
    aside: &mut Aside,
) -> Result<OpenedRequest, AllocError>
    ensures { (r : Readings) → AreRight r → IfOk result (λ made. opened_view made
        ≡ opened_code r (namespaces_of spaces.now) (origin_view (arc_value origin.now))
        (string_bytes text.now) (state_view state.now) (field_view ns.now)) }
{
    match ns {
        None => {
            let manner = Manner::EachForm;
            open_in(alloc, origin, manner, &state.namespace, text, aside)
        }
        Some(ns) => {
            let namespace = namespace_named(alloc, spaces, ns)?;
            open_elsewhere(alloc, origin, text, namespace, aside)
        }
    }
}

fn open_elsewhere(
    alloc: Global,
    origin: &Arc<Origin>,
    text: &String,
    namespace: Option<ArcStr>,
    aside: &mut Aside,
) -> Result<OpenedRequest, AllocError>
    ensures { (r : Readings) → AreRight r → IfOk result (λ made. opened_view made
        ≡ opened_elsewhere r (origin_view (arc_value origin.now)) (string_bytes text.now)
        (option_map (λ name. arc_str_bytes name) namespace)) }
{
    match namespace {
        Some(namespace) => {
            let manner = Manner::EachFormElsewhere;
            open_in(alloc, origin, manner, &namespace, text, aside)
        }
        None => Ok(OpenedRequest::NamespaceNotFound),
    }
}

fn open_in(
    alloc: Global,
    origin: &Arc<Origin>,
    manner: Manner,
    namespace: &ArcStr,
    text: &String,
    aside: &mut Aside,
) -> Result<OpenedRequest, AllocError>
    ensures { (r : Readings) → AreRight r → IfOk result (λ made. opened_view made
        ≡ Some (hand_of (origin_view (arc_value origin.now)) (manner_view manner) (arc_str_bytes namespace.now)
        (r.program (string_bytes text.now)))) }
{
    readings_are_unique();
    let ProgramForms { forms, fault } = aside.forms_of(alloc, text.as_str())?;
    let fault = text_fault(alloc, fault)?;
    Ok(OpenedRequest::WorkInHand(WorkInHand {
        origin: Arc::try_clone(origin)?,
        manner,
        namespace: copy_text(namespace)?,
        running: None,
        forms: VecDeque::from_vec(forms),
        fault,
    }))
}

// The fault of a program's text, as a fault of evaluation is told.
fn text_fault(alloc: Global, fault: Option<ReaderFault>) -> Result<Option<Fault>, AllocError>
    ensures { IfOk result (λ told. option_map failure_of told
        ≡ option_map text_failure (fault_option fault)) }
{
    let Some(ReaderFault { kind, at: _, text }) = fault else {
        return Ok(None);
    };
    let class = ArcStr::from_str(alloc, kind.class())?;
    let text = ArcStr::from_string(text)?;
    Ok(Some(Fault { class, text }))
}

// The namespace that a request names, if it is there.
fn namespace_named(alloc: Global, spaces: &Spaces, ns: &Ben) -> Result<Option<ArcStr>, AllocError>
    ensures { IfOk result (λ found. option_map (λ name. arc_str_bytes name) found
        ≡ named_namespace (namespaces_of spaces.now) (tree_view ns.now)) }
{
    match ns {
        Ben::String(name) => namespace_of(alloc, spaces, name.as_slice()),
        _other => Ok(None),
    }
}

fn namespace_of(alloc: Global, spaces: &Spaces, name: &[u8]) -> Result<Option<ArcStr>, AllocError>
    ensures { IfOk result (λ found. option_map (λ name. arc_str_bytes name) found
        ≡ option_and_then (namespace_there (namespaces_of spaces.now)) (text_in name.now)) }
{
    match str::from_utf8(name) {
        Ok(name) => namespace_there(alloc, spaces, name),
        Err(_) => Ok(None),
    }
}

fn namespace_there(alloc: Global, spaces: &Spaces, name: &str) -> Result<Option<ArcStr>, AllocError>
    ensures { IfOk result (λ found. option_map (λ name. arc_str_bytes name) found
        ≡ namespace_there (namespaces_of spaces.now) name.now) }
{
    if spaces.is_there(name.as_bytes()) {
        return Ok(Some(ArcStr::from_str(alloc, name)?));
    }
    Ok(None)
}
