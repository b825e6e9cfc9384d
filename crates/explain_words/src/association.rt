// The PDUs of association in words.

use crate::in_words::InWords;
use crate::text::Text;
use crate::values::{DIAGNOSTIC, put_credentials, put_instance, put_named};
use bind_pdu::{Bind, BindReturn, PeerAbort, Unbind, UnbindReturn};
use sle_numbers::{BindDiagnostic, PeerAbortDiagnostic, ServiceType, UnbindReason};

impl InWords for Bind<'_> {
    fn put_words(&self, text: &mut Text) {
        put_credentials("invokerCredentials", &self.credentials, text);
        text.characters("initiatorIdentifier", self.initiator);
        text.characters("responderPortIdentifier", self.port);
        put_named::<ServiceType>("serviceType", i128::from(self.service), text);
        text.number("versionNumber", i128::from(self.version));
        put_instance(&self.instance, text);
    }
}

impl InWords for BindReturn<'_> {
    fn put_words(&self, text: &mut Text) {
        put_credentials("performerCredentials", &self.credentials, text);
        text.characters("responderIdentifier", self.responder);
        match self.result {
            Ok(version) => text.number("versionNumber", version),
            Err(diagnostic) => put_named::<BindDiagnostic>(DIAGNOSTIC, diagnostic, text),
        }
    }
}

impl InWords for Unbind<'_> {
    fn put_words(&self, text: &mut Text) {
        put_credentials("invokerCredentials", &self.credentials, text);
        put_named::<UnbindReason>("unbindReason", i128::from(self.reason), text);
    }
}

impl InWords for UnbindReturn<'_> {
    fn put_words(&self, text: &mut Text) {
        put_credentials("responderCredentials", &self.credentials, text);
        text.field("result", "positive");
    }
}

pub fn put_abort(abort: &PeerAbort, text: &mut Text) {
    put_named::<PeerAbortDiagnostic>("diagnostic", i128::from(abort.diagnostic), text);
}
