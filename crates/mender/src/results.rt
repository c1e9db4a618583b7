//! The results of all workers of a plan.
ghost use Rattle.std.specs.Prelude.{◌≡◌, ◌^◌, IfOk, IfErr};
ghost use Rattle.mender.specs.Gathered.{IsComplete, IsFault, FirstStranger, FirstTwice, LacksOne};
ghost use Rattle.mender.specs.Gathered.{IsRefused, AreBelow, report_of, with_answer};

use crate::item::are_same;
use crate::{Done, Gather, Report};
use book::{Answer, Plan};
use std::alloc::Global;

/// Counts the answers, if each item of the plan has just one result, in any order of the results.
///
/// Else the answer is the first fault in the order of the results: `Stranger` at a result that is
/// not of the plan, `Twice` at one whose ticket has an earlier result, and at the end `Missing`, if
/// an item has no result. `NoMemory` if there is no memory to mark the tickets.
pub fn gather(alloc: Global, plan: &Plan, done: Vec<Done>) -> Result<Report, Gather>
    ensures ok { IfOk result
        (λ report. IsComplete plan.now.items.items done.items × (report ≡ report_of done.items)) }
    ensures err { IfErr result (λ fault. IsFault plan.now.items.items done.items fault) }
    ensures complete { IsComplete plan.now.items.items done.items
        → IfErr result (λ fault. fault ≡ Gather.NoMemory) }
    ensures stranger { FirstStranger plan.now.items.items done.items
        → IsRefused Gather.Stranger result }
    ensures twice { FirstTwice plan.now.items.items done.items → IsRefused Gather.Twice result }
    ensures missing { LacksOne plan.now.items.items done.items → IsRefused Gather.Missing result }
{
    judge(alloc, plan, &done)
}

/// As `gather`, with what each answer says of the results.
fn judge(alloc: Global, plan: &Plan, done: &[Done]) -> Result<Report, Gather>
    ensures ok { IfOk result
        (λ report. IsComplete plan.now.items.items done.now × (report ≡ report_of done.now)) }
    ensures err { IfErr result (λ fault. IsFault plan.now.items.items done.now fault) }
{
    let Ok(mut seen) = vec![in alloc; false; plan.items.len()] else {
        return Err(Gather::NoMemory);
    };
    let mut report = Report::default();
    for one in done {
        let place = one.ticket as usize;
        if place >= plan.items.len() || !are_same(&plan.items[place], &one.item) {
            return Err(Gather::Stranger);
        }
        if seen[place] {
            return Err(Gather::Twice);
        }
        seen[place] = true;
        count(&mut report, one);
    }
    if seen.contains(&false) {
        return Err(Gather::Missing);
    }
    Ok(report)
}

/// Counts one answer.
fn count(report: &mut Report, one: &Done)
    requires { AreBelow report.old (2 ^ 63) }
    ensures { report.new ≡ with_answer report.old one.now.answer }
{
    match &one.answer {
        Answer::Repaired(_) => report.repaired += 1,
        Answer::NotLost => report.not_lost += 1,
        Answer::NoName | Answer::NoFragment => report.gone += 1,
        Answer::Unrecoverable(_) => report.unrecoverable += 1,
        _ => unreachable!(),
    }
}
