// The text is read, and its forms are evaluated.
ghost use Rattle.std.specs.Prelude.{◌≡◌, option_map, false, IfOk, IfErr, OnOk, Ok};
ghost use Rattle.repl_asks.specs.Inside.View.{ask_view};
ghost use Rattle.value_data.specs.Inside.View.{view, items_view};
ghost use Rattle.repl_values.specs.Inside.FaultView.{failure_of};
ghost use Rattle.repl_reader.specs.Inside.View.{fault_option};
ghost use Rattle.repl_asks.specs.Job.{JobData};
ghost use Rattle.repl_asks.specs.InteractionTree.{InteractionTree};
ghost use Rattle.server_rules.specs.Readings.{Readings, AreRight, text_failure};
ghost use Rattle.repl_asks.specs.Inside.Jobs.{job_view};
ghost use Rattle.repl_walker.specs.Ends.{ending_view};
ghost use Rattle.server_rules.specs.Shared.{SharedData, left_by_form, shared_by, shared_by_forms};
ghost use Rattle.server_rules.specs.Shared.{shared_by_text, text_job};
ghost use Rattle.shared_space.specs.Loaded.{EvaluatesJobs, IsLoaded, IsFaultIn};
ghost use Rattle.shared_space.specs.Loaded.{IsFaultOf, IsUntold};
ghost use Rattle.shared_space.specs.Told.{shared_so_far};

use crate::space::{LoadError, SharedSpace};
use crate::teller::Teller;
use repl_asks::{Ask, End, Job, Work};
use repl_reader::laws::readings_are_unique;
use repl_reader::{ProgramForms, ReaderFault, read_all};
use repl_values::{Fault, Rule, Value, broken_rule, copy};
use repl_walker::{Ending, WalkError, walk};
use std::alloc::{AllocError, Global};
use std::sync::ArcStr;

/// Reads the text of the shared namespace, and evaluates its forms in order, up to the first fault.
/// A fault of the text itself comes behind those of its forms. While it runs it keeps what each
/// form asked and was answered.
pub fn load(alloc: Global, text: &str) -> Result<SharedSpace, LoadError>
    ensures loaded { (r : Readings) (e : JobData → InteractionTree) → AreRight r → EvaluatesJobs e
        → IfOk result (IsLoaded (shared_by_text r e text.now)) }
    ensures fault { IfErr result (IsFaultIn text.now) }
{
    readings_are_unique();
    let ProgramForms { forms, fault } = read_all(alloc, text)?;
    let mut teller = Teller::new(alloc);
    evaluate_all(alloc, &mut teller, forms.as_slice())?;
    let told = text_fault(alloc, fault)?;
    match told {
        Some(fault) => Err(LoadError::Fault(fault)),
        None => Ok(teller.finish(alloc)?),
    }
}

// The fault of the text, as a fault of evaluation is told.
fn text_fault(alloc: Global, fault: Option<ReaderFault>) -> Result<Option<Fault>, AllocError>
    ensures { IfOk result (λ told. option_map failure_of told
        ≡ option_map text_failure (fault_option fault)) }
{
    let Some(ReaderFault { kind, at: _, text }) = fault else {
        return Ok(None);
    };
    let class = ArcStr::from_str(alloc, kind.class())?;
    let text = ArcStr::from_string(text)?;
    Ok(Some(Fault { class, text }))
}

// The forms, one after another, up to the first fault.
fn evaluate_all(alloc: Global, teller: &mut Teller, forms: &[Value]) -> Result<(), LoadError>
    requires { teller.old.stopped ≡ false }
    ensures evaluated { (e : JobData → InteractionTree) → EvaluatesJobs e
        → OnOk result (shared_by_forms e (items_view forms.now) (shared_so_far teller.old)
        ≡ Ok (shared_so_far teller.new)) }
    ensures fault { (e : JobData → InteractionTree) → EvaluatesJobs e → IfErr result (IsFaultOf
        (shared_by_forms e (items_view forms.now) (shared_so_far teller.old))) }
{
    for form in forms {
        evaluate(alloc, teller, form)?;
    }
    Ok(())
}

fn evaluate(alloc: Global, teller: &mut Teller, form: &Value) -> Result<(), LoadError>
    requires { teller.old.stopped ≡ false }
    ensures goes_on { OnOk result (teller.new.stopped ≡ false) }
    ensures evaluated { (e : JobData → InteractionTree) → EvaluatesJobs e
        → OnOk result (shared_by (e (text_job (view form.now))) (shared_so_far teller.old)
        ≡ Ok (shared_so_far teller.new)) }
    ensures fault { (e : JobData → InteractionTree) → EvaluatesJobs e → IfErr result (IsFaultOf
        (shared_by (e (text_job (view form.now))) (shared_so_far teller.old))) }
{
    let job = job_of(alloc, form)?;
    let outcome = walk(alloc, &job, teller);
    drop(job);
    teller.has_told();
    match outcome {
        Ok(ending) => end_of(&ending),
        Err(WalkError::NoMemory) => Err(LoadError::NoMemory),
        Err(WalkError::Stopped(ask)) => Err(untold(alloc, teller, &ask)),
    }
}

fn job_of(alloc: Global, form: &Value) -> Result<Job, AllocError>
    ensures { IfOk result (λ job. job_view job ≡ text_job (view form.now)) }
{
    Ok(Job {
        work: Work::SharedForm(copy(form)?),
        namespace: ArcStr::from_str(alloc, "shared")?,
        retries: 0,
    })
}

// The fault with which an evaluation ended, if it did with one.
fn end_of(ending: &Ending) -> Result<(), LoadError>
    ensures value { (s : SharedData) → OnOk result
        (left_by_form (ending_view ending.now).end.result s ≡ Ok s) }
    ensures fault { (s : SharedData) → IfErr result
        (IsFaultOf (left_by_form (ending_view ending.now).end.result s)) }
{
    match ending.end().end() {
        End::Value(_) => Ok(()),
        End::Fault(fault) => Err(LoadError::Fault(fault.copy()?)),
    }
}

// Why an ask was left without an answer: it is not for the text, or memory was refused.
fn untold(alloc: Global, teller: &Teller, ask: &Ask) -> LoadError
    ensures { IsUntold teller.now (ask_view ask.now) result }
{
    if teller.is_told(ask) {
        return LoadError::NoMemory;
    }
    match broken_rule(alloc, Rule::SharedTextDefinesAlone) {
        Ok(fault) => LoadError::Fault(fault),
        Err(AllocError) => LoadError::NoMemory,
    }
}
