// The replies that a step makes.
ghost use Rattle.std.specs.Prelude.{◌≡◌, [], ◌∷◌, ◌++◌, map, string_bytes, IfOk, OnOk};
ghost use Rattle.std.specs.Prelude.{IfSome, Ok, Err};
ghost use Rattle.value_data.specs.Inside.View.{view};
ghost use Rattle.repl_values.specs.Inside.FaultView.{failure_of};
ghost use Rattle.repl_asks.specs.Inside.Jobs.{finished_view};
ghost use Rattle.repl_replies.specs.Replies.{bytes_of};
ghost use Rattle.repl_replies.specs.Inside.View.{origin_view, body_view};
ghost use Rattle.server_rules.specs.Replying.{reply, fault_line, fault_replies, output_replies};
ghost use Rattle.server_rules.specs.Replying.{value_reply};
ghost use Rattle.server_rules.specs.Moves.{end_replies};
ghost use Rattle.tenant_parts.specs.Spelled.{TellsEnd, TellsOutput, TellsResult};
ghost use Rattle.tenant_parts.specs.Replies.{made_bytes};

use crate::spelled::{EndReplies, ToldResult};
use repl_asks::{End, Finished};
use repl_replies::{Body, Origin};
use repl_values::{Fault, Value, print_into};
use std::alloc::{AllocError, Global};
use std::collections::VecDeque;

/// Replies that were made and do not wait yet, in order, each as its bytes.
#[derive(Drop)]
pub struct Batch {
    alloc: Global,
    pub(crate) replies: VecDeque<Vec<u8>>,
}

// Each fails only for want of memory.
impl Batch {
    /// No reply.
    pub fn new(alloc: Global) -> Batch
        ensures { made_bytes result ≡ [] }
    {
        Batch {
            alloc,
            replies: VecDeque::new(alloc),
        }
    }

    /// Adds one reply.
    pub fn add(&mut self, origin: &Origin, body: Body) -> Result<(), AllocError>
        ensures { OnOk result (made_bytes self.new
            ≡ made_bytes self.old ++ map bytes_of
            (reply (origin_view origin.now) (body_view body) ∷ [])) }
    {
        let bytes = origin.reply_bytes(self.alloc, &body)?;
        self.replies.push_back(bytes)?;
        Ok(())
    }

    /// Adds what is told of a fault: its class, and the whole as a line of text. These are made now,
    /// unless they were before.
    pub fn add_fault(
        &mut self,
        origin: &Origin,
        fault: &Fault,
        made: Option<ToldResult>,
    ) -> Result<(), AllocError>
        requires { IfSome made (TellsResult (origin_view origin.now) (Err (failure_of fault.now))) }
        ensures { OnOk result (made_bytes self.new
            ≡ made_bytes self.old ++ map bytes_of
            (fault_replies (origin_view origin.now) (failure_of fault.now))) }
    {
        if let Some(told) = made {
            return self.append(told.replies);
        }
        let Fault { class, text } = fault;
        let told = origin.exception_bytes(self.alloc, class.as_str())?;
        self.replies.push_back(told)?;
        let line = line_of(self.alloc, class.as_str(), text.as_str())?;
        let told = origin.error_text_bytes(self.alloc, line.as_str())?;
        self.replies.push_back(told)?;
        Ok(())
    }

    /// Adds what was printed, if that is anything.
    pub fn add_output(&mut self, origin: &Origin, printed: &str) -> Result<(), AllocError>
        ensures { OnOk result (made_bytes self.new
            ≡ made_bytes self.old ++ map bytes_of
            (output_replies (origin_view origin.now) printed.now)) }
    {
        if printed.is_empty() {
            return Ok(());
        }
        let bytes = origin.output_bytes(self.alloc, printed)?;
        self.replies.push_back(bytes)?;
        Ok(())
    }

    /// Adds what a form printed, if that is anything. The reply is made now, unless it was before.
    pub fn add_printed(
        &mut self,
        origin: &Origin,
        printed: &str,
        made: Option<Batch>,
    ) -> Result<(), AllocError>
        requires { IfSome made (TellsOutput (origin_view origin.now) printed.now) }
        ensures { OnOk result (made_bytes self.new
            ≡ made_bytes self.old ++ map bytes_of
            (output_replies (origin_view origin.now) printed.now)) }
    {
        match made {
            Some(made) => self.append(made),
            None => self.add_output(origin, printed),
        }
    }

    /// Adds a value as it is printed, with the namespace. It is printed now, unless it was before, and
    /// is told in this namespace.
    pub fn add_value(
        &mut self,
        origin: &Origin,
        namespace: &str,
        value: &Value,
        made: Option<ToldResult>,
    ) -> Result<(), AllocError>
        requires { IfSome made (TellsResult (origin_view origin.now) (Ok (view value.now))) }
        ensures { OnOk result (made_bytes self.new
            ≡ made_bytes self.old ++ map bytes_of
            (value_reply (origin_view origin.now) namespace.now (view value.now) ∷ [])) }
    {
        if let Some(told) = made {
            if told.namespace.as_str() == namespace {
                return self.append(told.replies);
            }
        }
        let mut text = String::new(self.alloc);
        print_into(self.alloc, value, &mut text)?;
        let bytes = origin.value_bytes(self.alloc, text.as_str(), namespace)?;
        self.replies.push_back(bytes)?;
        Ok(())
    }

    /// Adds how a form ended: first what it printed, and then its value or its fault.
    pub fn add_end(
        &mut self,
        origin: &Origin,
        finished: &Finished,
        made: EndReplies,
    ) -> Result<(), AllocError>
        requires { TellsEnd (origin_view origin.now) (finished_view finished.now) made }
        ensures { OnOk result (made_bytes self.new
            ≡ made_bytes self.old ++ map bytes_of
            (end_replies (origin_view origin.now) (finished_view finished.now))) }
    {
        let EndReplies { output, result } = made;
        self.add_printed(origin, finished.text(), output)?;
        match finished.end() {
            End::Value(value) => {
                self.add_value(origin, finished.namespace().as_str(), value, result)
            }
            End::Fault(fault) => self.add_fault(origin, fault, result),
        }
    }

    // Adds those of another batch.
    fn append(&mut self, mut more: Batch) -> Result<(), AllocError>
        ensures { OnOk result (made_bytes self.new ≡ made_bytes self.old ++ made_bytes more) }
    {
        self.replies.append(&mut more.replies)
    }
}

fn line_of(alloc: Global, class: &str, text: &str) -> Result<String, AllocError>
    ensures { IfOk result (λ line. string_bytes line
        ≡ fault_line (record { class = class.now; text = text.now })) }
{
    let mut line = String::from_str(alloc, class)?;
    line.push_str(": ")?;
    line.push_str(text)?;
    line.push_str("\n")?;
    Ok(line)
}
