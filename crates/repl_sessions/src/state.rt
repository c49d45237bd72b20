// What a session remembers.
use repl_values::{Fault, Value, copy, copy_text};
use std::alloc::{AllocError, Global};
use std::mem;
use std::sync::ArcStr;

/// The namespace of a fresh session.
pub const USER: &str = "user";

/// What a session remembers between its requests.
#[derive(Drop)]
pub struct SessionState {
    /// The name of the namespace in which its forms are evaluated.
    pub namespace: ArcStr,
    /// The last value, which is read as `*1`.
    pub one: Value,
    /// The value before that, `*2`.
    pub two: Value,
    /// The value before that one, `*3`.
    pub three: Value,
    /// The last fault, `*e`.
    pub fault: Value,
}

impl SessionState {
    ghost use Rattle.std.specs.Prelude.{◌≡◌, IfOk};
    ghost use Rattle.std.specs.Arc.{arc_str_bytes};
    ghost use Rattle.value_data.specs.Inside.View.{view};
    ghost use Rattle.repl_sessions.specs.State.{fresh, after_value, after_fault, in_namespace};
    ghost use Rattle.repl_sessions.specs.Inside.StateView.{state_view};

    /// What a session remembers before its first request. It fails only for want of memory.
    pub fn fresh(alloc: Global) -> Result<SessionState, AllocError>
        ensures { IfOk result (λ state. state_view state ≡ fresh) }
    {
        Ok(SessionState {
            namespace: ArcStr::from_str(alloc, USER)?,
            one: Value::Nil,
            two: Value::Nil,
            three: Value::Nil,
            fault: Value::Nil,
        })
    }

    /// The same state once more. It takes one step and no memory, and fails only where 2^63 owners
    /// share a part of it.
    pub fn copy(&self) -> Result<SessionState, AllocError>
        ensures { IfOk result (λ copied. state_view copied ≡ state_view self.now) }
    {
        Ok(SessionState {
            namespace: copy_text(&self.namespace)?,
            one: copy(&self.one)?,
            two: copy(&self.two)?,
            three: copy(&self.three)?,
            fault: copy(&self.fault)?,
        })
    }

    /// Gives way to another state.
    pub(crate) fn give_way(&mut self, state: SessionState)
        ensures { self.new ≡ state }
    {
        *self = state;
    }

    /// Notes the value of a form.
    pub fn note_value(&mut self, value: Value)
        ensures { state_view self.new ≡ after_value (view value) (state_view self.old) }
    {
        let one = mem::replace(&mut self.one, value);
        self.three = mem::replace(&mut self.two, one);
    }

    /// Notes the fault that ended a form.
    pub fn note_fault(&mut self, fault: Fault)
        ensures { let class = arc_str_bytes fault.class in let text = arc_str_bytes fault.text in
            state_view self.new ≡ after_fault class text (state_view self.old) }
    {
        self.fault = fault.into_value();
    }

    /// Makes this the namespace in which the next forms are evaluated.
    pub fn enter(&mut self, namespace: ArcStr)
        ensures { state_view self.new
            ≡ in_namespace (arc_str_bytes namespace) (state_view self.old) }
    {
        self.namespace = namespace;
    }
}

// So that a map of states can be copied.
impl Clone for SessionState {
    ghost use Rattle.std.specs.Prelude.{◌≡◌};
    ghost use Rattle.repl_sessions.specs.Inside.StateView.{state_view};

    ghost is_clone = { λ x y. state_view y ≡ state_view x };

    fn clone(&self) -> Result<SessionState, AllocError> {
        self.copy()
    }
}
