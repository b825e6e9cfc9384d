// What a session answers and tells of a bound FCLTU instance (CCSDS 912.1-B).
ghost use Rattle.std.specs.Prelude.{◌≡◌, ◌+◌, ◌<◌, ◌≤◌, Some, length, option_map};
ghost use Rattle.cds_time.specs.declared.cds.TheConstants.{MOMENT_END};
ghost use Rattle.session_services.specs.Service.{invocation_of, invocation_kind, invoke_of};
ghost use Rattle.session_services.specs.FcltuServed.{fcltu_outcome, fcltu_returned, fcltu_told};
ghost use Rattle.session_services.specs.FcltuServed.{fcltu_notified};
ghost use Rattle.session_core.specs.ServiceSteps.{answered_with, led_to, told_more};

use crate::standing::Standing;
use assoc_core::PduKind;
use cltu_queue::{Notice, UplinkView};
use fcltu_service::CltuAnswer;
use session_services::{
    Invocation, add_fcltu_notice, add_fcltu_report, fcltu_outcome, put_fcltu_answer,
};
use station_config::Site;

// The answer to an invocation.
impl Standing {
    // Its return is the round's block, where it has one.
    fn put_fcltu_return(&mut self, site: &Site, invocation: &Invocation<'_>, answer: CltuAnswer)
        requires { self.old.moment < MOMENT_END }
        ensures { self.new ≡ answered_with site.now self.old
            (invocation_kind (invocation_of invocation.now))
            (fcltu_returned answer (invoke_of (invocation_of invocation.now))) }
    {
        match answer {
            CltuAnswer::Nothing => {}
            _ => {
                let signature = self.sign_bound(site, invocation.kind());
                put_fcltu_answer(&mut self.block, &signature, invocation.invoke(), answer);
            }
        }
    }

    // It is answered so, and the association goes on by it.
    pub(crate) fn put_fcltu_answer(
        &mut self,
        site: &Site,
        invocation: &Invocation<'_>,
        answer: CltuAnswer,
    )
        requires { self.old.moment < MOMENT_END }
        ensures { self.new ≡ led_to (fcltu_outcome answer) (answered_with site.now self.old
            (invocation_kind (invocation_of invocation.now))
            (fcltu_returned answer (invoke_of (invocation_of invocation.now)))) }
    {
        let outcome = fcltu_outcome(&answer);
        self.put_fcltu_return(site, invocation, answer);
        self.lead_to(outcome);
    }
}

// What is told unasked.
impl Standing {
    // Its status report is put behind the block, where one is due.
    pub(crate) fn put_fcltu_report(&mut self, site: &Site, due: Option<UplinkView>)
        requires moment { self.old.moment < MOMENT_END }
        requires room { length self.old.block ≤ 3064 }
        ensures told { self.new ≡ told_more site.now self.old (option_map fcltu_told due) }
        ensures few { length self.new.block ≤ length self.old.block + 1032 }
    {
        if let Some(view) = due {
            let signature = self.sign_bound(site, PduKind::Report);
            add_fcltu_report(&mut self.block, &signature, view);
        }
    }

    // A notice is put behind the block.
    pub(crate) fn put_fcltu_notice(&mut self, site: &Site, notice: Notice)
        requires moment { self.old.moment < MOMENT_END }
        requires room { length self.old.block ≤ 3064 }
        ensures { self.new ≡ told_more site.now self.old (Some (fcltu_notified notice)) }
    {
        let signature = self.sign_bound(site, PduKind::Report);
        add_fcltu_notice(&mut self.block, &signature, notice);
    }
}
