// What a session answers and tells of a bound instance of a return service (CCSDS 911.1-B and
// 911.2-B).
ghost use Rattle.std.specs.Prelude.{◌≡◌, ◌+◌, ◌<◌, ◌≤◌, length, option_map};
ghost use Rattle.cds_time.specs.declared.cds.TheConstants.{MOMENT_END};
ghost use Rattle.return_service.specs.Answer.{AnswerFits};
ghost use Rattle.session_services.specs.Service.{invocation_of, invocation_kind, invoke_of};
ghost use Rattle.session_services.specs.ReturnServed.{outcome_of, returned, return_told};
ghost use Rattle.session_core.specs.ServiceSteps.{answered_with, led_to, told_more, permitted};

use crate::standing::Standing;
use assoc_core::PduKind;
use return_pdu::{ReturnAnswer, ReturnKind, ReturnNumbers};
use session_services::{
    Invocation, add_return_report, channels_of, put_return_answer, return_outcome,
};
use sle_common::Gvcid;
use station_config::Site;

// The answer to an invocation.
impl Standing {
    // The channels that a START may ask for of the instance that is bound.
    pub(crate) fn permitted<'a>(&self, site: &'a Site) -> &'a [Gvcid]
        ensures { result.now ≡ permitted site.now self.now }
    {
        channels_of(self.service(site))
    }

    // Its return is the round's block, where it has one.
    fn put_return(&mut self, site: &Site, invocation: &Invocation<'_>, answer: ReturnAnswer)
        requires moment { self.old.moment < MOMENT_END }
        requires fits { AnswerFits answer }
        ensures { self.new ≡ answered_with site.now self.old
            (invocation_kind (invocation_of invocation.now))
            (returned answer (invoke_of (invocation_of invocation.now))) }
    {
        match answer {
            ReturnAnswer::Nothing => {}
            _ => {
                let signature = self.sign_bound(site, invocation.kind());
                put_return_answer(&mut self.block, &signature, invocation.invoke(), answer);
            }
        }
    }

    // It is answered so, and the association goes on by it.
    pub(crate) fn put_answer(
        &mut self,
        site: &Site,
        invocation: &Invocation<'_>,
        answer: ReturnAnswer,
    )
        requires moment { self.old.moment < MOMENT_END }
        requires fits { AnswerFits answer }
        ensures { self.new ≡ led_to (outcome_of answer) (answered_with site.now self.old
            (invocation_kind (invocation_of invocation.now))
            (returned answer (invoke_of (invocation_of invocation.now)))) }
    {
        let outcome = return_outcome(&answer);
        self.put_return(site, invocation, answer);
        self.lead_to(outcome);
    }
}

// What is told unasked.
impl Standing {
    // Its status report is appended to the block, where one is due.
    pub(crate) fn put_return_report(
        &mut self,
        site: &Site,
        kind: ReturnKind,
        due: Option<ReturnNumbers>,
    )
        requires moment { self.old.moment < MOMENT_END }
        requires room { length self.old.block ≤ 3064 }
        ensures told { self.new ≡ told_more site.now self.old (option_map (return_told kind) due) }
        ensures few { length self.new.block ≤ length self.old.block + 1032 }
    {
        if let Some(numbers) = due {
            let signature = self.sign_bound(site, PduKind::Report);
            add_return_report(&mut self.block, &signature, kind, numbers);
        }
    }
}
