// What happens to an association, word by word. A word is the name of credentials or of a moment,
// which the next messages have; `>` and an outcome; the name of a message; or `state`.
ghost use Rattle.station_config.specs.Validity.{IsSite};

use crate::credentials::{NOW, credentials_of, moment_of};
use crate::rows::first_of;
use crate::stations::station_of;
use assoc_core::{Association, Outcome, PduKind, State, Step};
use sle_common::Credentials;
use sle_numbers::PeerAbortDiagnostic;
use station_config::Site;
use std::alloc::{AllocError, Global};
use std::fmt::Write;

// All messages; a BIND has its initiator behind `=`.
const MESSAGES: &str = "context,heartbeat,bind=MOC,unbind,peer-abort,start,stop,report,get,throw,\
    transfer,other,undecoded";

// Each outcome; of a bound user, here of a forward service, the peer stands behind `-`.
const OUTCOMES: &str = ">context,>forward-7,>denied,>started,>stopped,>unbound,>kept";

// Unused ones, malformed ones, those of a picosecond past the delay, a wrong digest, the right
// ones, those at the end of the delay, and those of the other hash function.
const CREDENTIALS: &str = "unused,malformed,sha1 too-late,wrong,sha1,sha1 late,sha256";

// The words that a name with a star stands for, one after another.
fn alternatives(name: &str) -> &'static str {
    match name {
        "messages" => MESSAGES,
        "outcomes" => OUTCOMES,
        "credentials" => CREDENTIALS,
        _ => "",
    }
}

/// What the words behind the name of a station tell; once for each word that a star stands for.
pub fn tell_course(alloc: Global, text: &str, told: &mut String) -> Result<(), AllocError> {
    let (name, words) = first_of(text);
    match station_of(alloc, name) {
        Ok(site) => tell_courses(&site, words, told),
        Err(_) => Err(AllocError),
    }
}

fn tell_courses(site: &Site, words: &str, told: &mut String) -> Result<(), AllocError>
    requires { IsSite site.now }
{
    let (before, star) = words.split_once('*').unwrap_or((words, ""));
    let (list, behind) = first_of(star);
    for word in alternatives(list).split(',') {
        let mut course = Course::new();
        course.go_on(site, before, told)?;
        course.go_on(site, word, told)?;
        course.go_on(site, behind, told)?;
    }
    Ok(())
}

fn message_of(word: &str) -> Option<PduKind<'_>> {
    let (name, initiator) = word.split_once('=').unwrap_or((word, ""));
    match name {
        "context" => Some(PduKind::Context),
        "heartbeat" => Some(PduKind::Heartbeat),
        "bind" => Some(PduKind::Bind {
            initiator: initiator.as_bytes(),
        }),
        "unbind" => Some(PduKind::Unbind),
        "peer-abort" => Some(PduKind::PeerAbort),
        "start" => Some(PduKind::Start),
        "stop" => Some(PduKind::Stop),
        "report" => Some(PduKind::Report),
        "get" => Some(PduKind::Parameter),
        "throw" => Some(PduKind::Throw),
        "transfer" => Some(PduKind::Transfer),
        "other" => Some(PduKind::Other),
        "undecoded" => Some(PduKind::Undecoded),
        _ => None,
    }
}

fn outcome_of(word: &str) -> Option<Outcome> {
    let (name, peer) = word.split_once('-').unwrap_or((word, "0"));
    let peer = peer.parse().unwrap_or(0);
    match name {
        ">context" => Some(Outcome::Context),
        ">bound" => Some(Outcome::Bound {
            peer,
            forward: false,
        }),
        ">forward" => Some(Outcome::Bound {
            peer,
            forward: true,
        }),
        ">denied" => Some(Outcome::Denied),
        ">started" => Some(Outcome::Started),
        ">stopped" => Some(Outcome::Stopped),
        ">unbound" => Some(Outcome::Unbound),
        ">kept" => Some(Outcome::Kept),
        _ => None,
    }
}

// An association on its way.
#[derive(Drop)]
struct Course {
    association: Association,
    credentials: Credentials<'static>,
    now: u128,
}

impl Course {
    fn new() -> Course {
        Course {
            association: Association::new(),
            credentials: Credentials::Unused,
            now: NOW,
        }
    }

    // These words happen to it at a site.
    fn go_on(&mut self, site: &Site, words: &str, told: &mut String) -> Result<(), AllocError>
        requires { IsSite site.now }
    {
        for word in words.split_whitespace() {
            self.happens(site, word, told)?;
        }
        Ok(())
    }

    fn happens(&mut self, site: &Site, word: &str, told: &mut String) -> Result<(), AllocError>
        requires { IsSite site.now }
    {
        if let Some(credentials) = credentials_of(word) {
            self.credentials = credentials;
        } else if let Some(now) = moment_of(word) {
            self.now = now;
        } else if let Some(outcome) = outcome_of(word) {
            self.association.moved(outcome);
        } else if let Some(message) = message_of(word) {
            return self.invoke(site, message, told);
        } else if word == "state" {
            return self.tell_state(told);
        } else {
            return told.push_str("an unknown word ");
        }
        Ok(())
    }

    // Tells a word of a message, and `x` where the association is closing then.
    fn invoke(
        &mut self,
        site: &Site,
        message: PduKind<'_>,
        told: &mut String,
    ) -> Result<(), AllocError>
        requires { IsSite site.now }
    {
        let credentials = self.credentials;
        let step = self
            .association
            .invoke(site, message, &credentials, self.now);
        told.push_str(step_word(step))?;
        if self.association.state() == State::Closing {
            told.push_str("x ")
        } else {
            told.push_str(" ")
        }
    }

    // The state, and who is bound.
    fn tell_state(&self, told: &mut String) -> Result<(), AllocError> {
        let state = self.association.state();
        let name = match state {
            State::Opening => "opening",
            State::Unbound => "unbound",
            State::Ready(_) => "ready",
            State::Active(_) => "active",
            State::Closing => "closing",
        };
        match state.binding() {
            None => write!(told, "{name} "),
            Some(binding) if binding.forward => write!(told, "{name}-forward-{} ", binding.peer),
            Some(binding) => write!(told, "{name}-{} ", binding.peer),
        }
    }
}

// P is pass, D denied, and a digit a diagnostic of PEER-ABORT.
fn step_word(step: Step) -> &'static str {
    match step {
        Step::Pass => "P",
        Step::Denied => "D",
        Step::Abort {
            diagnostic: PeerAbortDiagnostic::AccessDenied,
        } => "0",
        Step::Abort {
            diagnostic: PeerAbortDiagnostic::ProtocolError,
        } => "3",
        Step::Abort {
            diagnostic: PeerAbortDiagnostic::EncodingError,
        } => "5",
        Step::Abort { .. } => "another diagnostic",
    }
}
