// When two jobs are the same.
ghost use Rattle.std.specs.Prelude.{◌≡◌, ◌↔◌, IsTrue};
ghost use Rattle.repl_asks.specs.Inside.Jobs.{work_view, job_view};

use crate::sends::same_task;
use crate::values::{same_text, same_value};
use repl_asks::{Job, Work};

/// Whether there is the same to evaluate.
pub fn same_work(left: &Work, right: &Work) -> bool
    ensures { IsTrue result ↔ (work_view left.now ≡ work_view right.now) }
{
    match (left, right) {
        (Work::Form(a), Work::Form(b)) => same_value(a, b),
        (Work::SharedForm(a), Work::SharedForm(b)) => same_value(a, b),
        (Work::Action(a, s), Work::Action(b, t)) => same_value(a, b) && same_task(s, t),
        _ => false,
    }
}

/// Whether the jobs have the same work, namespace and number of attempts.
pub fn same_job(left: &Job, right: &Job) -> bool
    ensures { IsTrue result ↔ (job_view left.now ≡ job_view right.now) }
{
    left.retries == right.retries
        && same_text(&left.namespace, &right.namespace)
        && same_work(&left.work, &right.work)
}
