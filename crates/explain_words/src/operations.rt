// The PDUs that the services share, in words.

use crate::in_words::InWords;
use crate::text::Text;
use crate::values::{
    DIAGNOSTIC, put_channel, put_confirmation, put_diagnostic, put_invoker, put_named,
    put_performer,
};
use fcltu_numbers::CltuDeliveryMode;
use return_pdu::{GetParameter, ParameterReturn, Schedule, ScheduleReturn, Stop, StopReturn};
use sle_common::{Parameter, ReportKind};
use sle_numbers::{
    CommonDiagnostic, GetParameterDiagnostic, Numbered, RequestedFrameQuality, ReturnDeliveryMode,
    ScheduleDiagnostic,
};

impl InWords for Stop<'_> {
    fn put_words(&self, text: &mut Text) {
        put_invoker(&self.credentials, self.invoke, text);
    }
}

impl InWords for StopReturn<'_> {
    fn put_words(&self, text: &mut Text) {
        put_performer(&self.credentials, self.invoke, text);
        match self.result {
            Ok(()) => text.field("result", "positive"),
            Err(diagnostic) => put_named::<CommonDiagnostic>(DIAGNOSTIC, diagnostic, text),
        }
    }
}

impl InWords for Schedule<'_> {
    fn put_words(&self, text: &mut Text) {
        put_invoker(&self.credentials, self.invoke, text);
        match self.report {
            ReportKind::Now => text.field("reportType", "immediately"),
            ReportKind::Stop => text.field("reportType", "stop"),
            ReportKind::Cycle(seconds) => put_seconds(
                "reportType, periodically",
                i128::from(seconds),
                text,
            ),
        }
    }
}

impl InWords for ScheduleReturn<'_> {
    fn put_words(&self, text: &mut Text) {
        put_performer(&self.credentials, self.invoke, text);
        put_confirmation::<ScheduleDiagnostic>(&self.result, text);
    }
}

impl InWords for GetParameter<'_> {
    fn put_words(&self, text: &mut Text) {
        put_invoker(&self.credentials, self.invoke, text);
        put_parameter_name("parameterName", i128::from(self.name), text);
    }
}

impl InWords for ParameterReturn<'_> {
    fn put_words(&self, text: &mut Text) {
        put_performer(&self.credentials, self.invoke, text);
        match &self.result {
            Ok(parameter) => put_parameter(parameter, text),
            Err(diagnostic) => put_diagnostic::<GetParameterDiagnostic>(diagnostic, text),
        }
    }
}

// The names of parameters.
const PARAMETERS: [(i128, &str); 7] = [
    (4, "bufferSize"),
    (6, "deliveryMode"),
    (15, "latencyLimit"),
    (26, "reportingCycle"),
    (27, "requestedFrameQuality"),
    (28, "requestedGvcId"),
    (29, "returnTimeoutPeriod"),
];

/// Appends a field that is the number which names a parameter.
pub fn put_parameter_name(field: &str, number: i128, text: &mut Text) {
    for (name, word) in &PARAMETERS {
        if *name == number {
            text.field(field, word);
            return;
        }
    }
    text.begin(field);
    text.put_number(number);
    text.put(", which names no parameter");
    text.end();
}

fn put_parameter(parameter: &Parameter, text: &mut Text) {
    match parameter {
        Parameter::BufferSize(items) => text.number("bufferSize", *items),
        Parameter::Mode(mode) => put_mode(*mode, text),
        Parameter::Latency(None) => text.field("latencyLimit", "offline"),
        Parameter::Latency(Some(seconds)) => put_seconds("latencyLimit", *seconds, text),
        Parameter::Cycle(None) => text.field("reportingCycle", "periodicReportingOff"),
        Parameter::Cycle(Some(seconds)) => put_seconds("reportingCycle", *seconds, text),
        Parameter::Quality(quality) => {
            put_named::<RequestedFrameQuality>("requestedFrameQuality", *quality, text);
        }
        Parameter::Channel(None) => text.field("requestedGvcId", "undefined"),
        Parameter::Channel(Some(channel)) => put_channel(channel, text),
        Parameter::Timeout(seconds) => put_seconds("returnTimeoutPeriod", *seconds, text),
    }
}

// The mode of the forward service has a number above those of the return services.
fn put_mode(mode: i128, text: &mut Text) {
    if mode == i128::from(CltuDeliveryMode::Online.number()) {
        text.field("deliveryMode", CltuDeliveryMode::Online.word());
    } else {
        put_named::<ReturnDeliveryMode>("deliveryMode", mode, text);
    }
}

fn put_seconds(name: &str, seconds: i128, text: &mut Text) {
    text.begin(name);
    text.put_number(seconds);
    text.put(" s");
    text.end();
}
