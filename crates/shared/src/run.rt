//! Running jobs in order.
ghost use Rattle.std.specs.Prelude.{◌≡◌, ◌⊎◌, ◌<◌, List, [], ◌∷◌, length, IfOk, IfErr, OnErr};
ghost use mathlib.Core.List.{IsPrefix};
ghost use Rattle.history.specs.Step.{put as put_of};
ghost use Rattle.book.specs.Holds.{IsCallFault};
ghost use Rattle.requests.specs.declared.jobs.Ask.{Ask};
ghost use Rattle.shared.specs.Calls.{Called};
ghost use Rattle.shared.specs.Paced.{AreLetThrough, AsksMemory, HasNotBegun, StoppedAt};
ghost use Rattle.shared.specs.Runs.{call_reply};
ghost use Rattle.shared.specs.Serving.{asks_of, replies_in, rows_asked, rows_replied, Serves};

use crate::{Ask, Cause, Job, Pace, Pass, Reply, RowReply, Stopped, Store};
use book::{Answer, Fault, Name};
use bytes::Bytes;
use lrc_code::Code;
use requests::Request;
use std::alloc::Global;
use std::sync::Wait;

impl Store {
    /// Runs the jobs row by row, each between its `before` and its `after`, and gives the replies,
    /// each with its row. If a call finds the journal full, or its blob is too long, the run goes
    /// on. Room for all replies is allocated first.
    ///
    /// `Stopped`, with the replies so far, if that room or a call was refused memory, or if a
    /// `before` answered false.
    pub fn run<R: Wait, P: Pace>(
        &self,
        rt: &R,
        alloc: Global,
        pass: &mut Pass,
        jobs: Vec<Job>,
        pace: &P,
    ) -> Result<Vec<RowReply>, Stopped>
        requires { pass.old.store ≡ self.now }
        ensures all { IfOk result (λ replies. length replies.items ≡ length jobs.items) }
        ensures unfinished { IfErr result (λ stopped. (stopped.done.items ≡ [])
            ⊎ (length stopped.done.items < length jobs.items)) }
        ensures rows { IfOk result (λ replies. rows_replied replies.items ≡ rows_asked jobs.items) }
        ensures rows_by_then { IfErr result (λ stopped.
            IsPrefix (rows_replied stopped.done.items) (rows_asked jobs.items)) }
        ensures serves { IfOk result (λ replies.
            Serves pass.old (asks_of jobs.items) (replies_in replies.items) pass.new) }
        ensures serves_by_then { IfErr result (λ stopped.
            Serves pass.old (asks_of jobs.items) (replies_in stopped.done.items) pass.new) }
        ensures paced { IfOk result (λ _. AreLetThrough (P.may_answer pace.now) jobs.items) }
        ensures cause { IfErr result (λ stopped. HasNotBegun pass.old stopped pass.new
            ⊎ StoppedAt (P.may_answer pace.now) jobs.items stopped) }
    {
        let Ok(mut done) = Vec::with_capacity(alloc, jobs.len()) else {
            return Err(Stopped {
                done: Vec::new(alloc),
                cause: Cause::NoMemory,
            });
        };
        for job in jobs {
            let Job { row, ask } = job;
            if !pace.before(row) {
                return Err(Stopped {
                    done,
                    cause: Cause::Paused,
                });
            }
            let served = self.serve(rt, alloc, pass, ask);
            pace.after(row);
            let Ok(reply) = served else {
                return Err(Stopped {
                    done,
                    cause: Cause::NoMemory,
                });
            };
            done.push_reserved(RowReply { row, reply });
        }
        Ok(done)
    }

    /// Serves one job and gives the reply. After a fault nothing was done, and the run stops.
    fn serve<R: Wait>(
        &self,
        rt: &R,
        alloc: Global,
        pass: &mut Pass,
        ask: Ask,
    ) -> Result<Reply, Fault>
        requires { pass.old.store ≡ self.now }
        ensures ok { IfOk result (λ reply. Serves pass.old (ask ∷ []) (reply ∷ []) pass.new) }
        ensures err { OnErr result ((asks : List Ask) → Serves pass.old asks [] pass.new) }
        ensures wants { OnErr result (AsksMemory ask) }
    {
        match ask {
            Ask::Put { name, code, bytes } => {
                reply_to(self.serve_put(rt, alloc, pass, name, code, bytes))
            }
            Ask::Read { name, start, len } => {
                reply_to(self.make(rt, pass, Request::Read { name, start, len }))
            }
            Ask::Lose {
                name,
                stripe,
                fragment,
            } => {
                let loss = Request::Lose {
                    alloc,
                    name,
                    stripe,
                    fragment,
                };
                reply_to(self.make(rt, pass, loss))
            }
            Ask::Repair {
                name,
                stripe,
                fragment,
            } => reply_to(self.repair(rt, alloc, pass, name, stripe, fragment)),
            Ask::Delete { name } => reply_to(self.make(rt, pass, Request::Delete { name })),
            Ask::Stat { name } => reply_to(self.make(rt, pass, Request::Stat { name })),
            Ask::Trim { keep } => match self.trim(rt, alloc, pass, keep) {
                Ok(count) => Ok(Reply::Trimmed(count)),
                Err(fault) => Err(fault),
            },
        }
    }

    /// Serves a put. The blob is sealed before the critical section.
    fn serve_put<R: Wait>(
        &self,
        rt: &R,
        alloc: Global,
        pass: &mut Pass,
        name: Name,
        code: Code,
        bytes: Bytes,
    ) -> Result<Answer, Fault>
        requires { pass.old.store ≡ self.now }
        ensures called { Called pass.old (put_of name code bytes) result pass.new }
        ensures faults { IfErr result (λ e. IsCallFault e ⊎ (e ≡ Fault.TooLong)) }
    {
        match self.seal(alloc, bytes, code) {
            Ok(sealed) => {
                let put = Request::Put {
                    alloc,
                    name,
                    sealed,
                };
                self.make(rt, pass, put)
            }
            Err(fault) => pass.refuse(fault),
        }
    }
}

/// The reply to a call, or the fault that stops the run.
fn reply_to(made: Result<Answer, Fault>) -> Result<Reply, Fault>
    ensures { result ≡ call_reply made }
{
    match made {
        Ok(answer) => Ok(Reply::Made(answer)),
        Err(Fault::JournalFull) => Ok(Reply::Refused(Fault::JournalFull)),
        Err(Fault::TooLong) => Ok(Reply::Refused(Fault::TooLong)),
        Err(fault) => Err(fault),
    }
}
