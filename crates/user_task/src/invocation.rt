// The invocations of a task.
ghost use Rattle.std.specs.Prelude.{◌≡◌, ◌+◌, ◌<◌, ◌^◌, false, IsTrue, IfSome, option_map};
ghost use Rattle.user_task.specs.declared.task.Task.{Task};
ghost use Rattle.user_task.specs.Fitting.{fits_said, fits_task};
ghost use Rattle.user_task.specs.Invocation.{said_of, invocation_at, started_at, closing_at, forward_at};
ghost use Rattle.user_task.specs.Work.{cltus_of, is_show, report_of};

use crate::cltus::CltuLine;
use crate::task::Task;

/// What a user invokes (CCSDS 911.1-B, 911.2-B and 912.1-B).
#[derive(Clone, Copy, Debug)]
pub enum Invocation<'a> {
    Bind,
    Start,
    /// SCHEDULE-STATUS-REPORT of a report each so many seconds.
    Schedule(u16),
    /// TRANSFER-DATA of a CLTU.
    Transfer(&'a CltuLine),
    Stop,
    Unbind,
}

impl Task {
    /// The task's invocation at a place, counted from 0; none behind the last one.
    #[tactic(auto, using(crate::proofs::Invocations::first_fits))]
    pub fn invocation(&self, place: usize) -> Option<Invocation<'_>>
        requires { IsTrue (fits_task self.now) }
        ensures exact { option_map said_of result ≡ invocation_at self.now.work place }
        ensures fits { IfSome result (λ invocation.
            IsTrue (fits_said self.now (said_of invocation))) }
        ensures place { IfSome result (λ invocation. place + 1 < 2 ^ 64) }
    {
        if self.work.is_show() {
            return None;
        }
        match place {
            0 => Some(Invocation::Bind),
            1 => Some(Invocation::Start),
            _ => self.started(place - 2),
        }
    }

    // The invocation after START at a place: what asks for reports, where they are wanted, comes
    // first.
    fn started(&self, place: usize) -> Option<Invocation<'_>>
        requires fits { IsTrue (fits_task self.now) }
        requires invokes { is_show self.now.work ≡ false }
        ensures exact { option_map said_of result
            ≡ started_at (report_of self.now.work) (cltus_of self.now.work) place }
        ensures fits { IfSome result (λ invocation.
            IsTrue (fits_said self.now (said_of invocation))) }
        ensures place { IfSome result (λ invocation. place + 3 < 2 ^ 64) }
    {
        match (self.work.report(), place) {
            (None, _) => self.forward(place),
            (Some(cycle), 0) => Some(Invocation::Schedule(cycle)),
            (Some(_), _) => self.forward(place - 1),
        }
    }

    // The invocation at a place after these: of a CLTU, or one that ends the work.
    #[tactic(auto, using(crate::proofs::Invocations::line_fits))]
    fn forward(&self, place: usize) -> Option<Invocation<'_>>
        requires fits { IsTrue (fits_task self.now) }
        requires invokes { is_show self.now.work ≡ false }
        ensures exact { option_map said_of result ≡ forward_at (cltus_of self.now.work) place }
        ensures fits { IfSome result (λ invocation.
            IsTrue (fits_said self.now (said_of invocation))) }
        ensures place { IfSome result (λ invocation. place + 4 < 2 ^ 64) }
    {
        let cltus = self.work.cltus();
        match cltus.get(place) {
            Some(line) => Some(Invocation::Transfer(line)),
            None => closing(place - cltus.len()),
        }
    }
}

fn closing(place: usize) -> Option<Invocation<'static>>
    ensures exact { option_map said_of result ≡ closing_at place }
    ensures fits { (task : Task) → IfSome result (λ invocation.
        IsTrue (fits_said task (said_of invocation))) }
    ensures place { IfSome result (λ invocation. place < 2) }
{
    match place {
        0 => Some(Invocation::Stop),
        1 => Some(Invocation::Unbind),
        _ => None,
    }
}
