// What a user asks, by its words, and an answer as words.
ghost use Rattle.sle_common.specs.Gvcid.{gvcid};
ghost use Rattle.rcf_service.specs.Rcf.{asked_of};
ghost use Rattle.return_service.specs.Requested.{AskedFits};

use cds_time::{Cds, Rest};
use raf_service::RafInvocation;
use rcf_service::RcfInvocation;
use return_pdu::{RafStart, RcfStart, ReturnAnswer, ReturnNumbers};
use sle_common::{Channel, Credentials, Diagnostic, Gvcid, Parameter, ReportKind};
use sle_numbers::RequestedFrameQuality;
use std::alloc::{AllocError, Global};

// A time: `none`, `bad` for one that names no moment, or the milliseconds of a day.
fn time(word: &str) -> Option<Cds> {
    let millis = match word {
        "none" => return None,
        "bad" => 86_400_000,
        _ => word.parse().unwrap_or(0),
    };
    Some(Cds {
        days: 20_000,
        millis,
        rest: Rest::Micros(0),
    })
}

fn quality(word: &str) -> RequestedFrameQuality {
    match word {
        "0" => RequestedFrameQuality::GoodFramesOnly,
        "1" => RequestedFrameQuality::ErredFrameOnly,
        _ => RequestedFrameQuality::AllFrames,
    }
}

/// A channel: spacecraft, version and virtual channel, or `*` for the master channel.
pub fn channel(word: &str) -> Gvcid
    ensures { gvcid.Fits result }
{
    let (spacecraft, rest) = word.split_once('/').unwrap_or((word, ""));
    let (version, channel) = rest.split_once('/').unwrap_or((rest, ""));
    let channel = match channel {
        "*" => Channel::Master,
        _ => Channel::Virtual(channel.parse().unwrap_or(0).min(63)),
    };
    Gvcid {
        spacecraft: spacecraft.parse().unwrap_or(0).min(1023),
        version: version.parse().unwrap_or(0).min(3),
        channel,
    }
}

fn report_kind(word: &str) -> ReportKind {
    match word {
        "now" => ReportKind::Now,
        "stop" => ReportKind::Stop,
        _ => ReportKind::Cycle(word.parse().unwrap_or(0)),
    }
}

// The times of a START, and its last word.
fn start_words(words: &str) -> (Option<Cds>, Option<Cds>, &str) {
    let (start, rest) = words.split_once(' ').unwrap_or((words, ""));
    let (stop, last) = rest.split_once(' ').unwrap_or((rest, ""));
    (time(start), time(stop), last)
}

fn raf_start(words: &str) -> RafStart<'static> {
    let (start, stop, last) = start_words(words);
    RafStart {
        credentials: Credentials::Unused,
        invoke: 0,
        start,
        stop,
        quality: quality(last),
    }
}

fn rcf_start(words: &str) -> RcfStart<'static>
    ensures { gvcid.Fits result.channel }
{
    let (start, stop, last) = start_words(words);
    RcfStart {
        credentials: Credentials::Unused,
        invoke: 0,
        start,
        stop,
        channel: channel(last),
    }
}

/// What is asked of RAF: `start TIME TIME QUALITY`, `stop`, `report KIND`, `get NAME`, or nothing.
pub fn raf_invocation(words: &str) -> RafInvocation<'static> {
    let (first, rest) = words.split_once(' ').unwrap_or((words, ""));
    match first {
        "start" => RafInvocation::Start(raf_start(rest)),
        "stop" => RafInvocation::Stop,
        "report" => RafInvocation::Report(report_kind(rest)),
        "get" => RafInvocation::Get(rest.parse().unwrap_or(0)),
        _ => RafInvocation::Nothing,
    }
}

/// What is asked of RCF: the same, but for `start TIME TIME CHANNEL`.
pub fn rcf_invocation(words: &str) -> RcfInvocation<'static>
    ensures { AskedFits (asked_of result) }
{
    let (first, rest) = words.split_once(' ').unwrap_or((words, ""));
    match first {
        "start" => RcfInvocation::Start(rcf_start(rest)),
        "stop" => RcfInvocation::Stop,
        "report" => RcfInvocation::Report(report_kind(rest)),
        "get" => RcfInvocation::Get(rest.parse().unwrap_or(0)),
        _ => RcfInvocation::Nothing,
    }
}

fn done_text(alloc: Global, done: Result<(), Diagnostic>) -> Result<String, AllocError> {
    match done {
        Ok(()) => format!(in alloc; "ok"),
        Err(why) => format!(in alloc; "{why:?}"),
    }
}

fn parameter_text(alloc: Global, parameter: Parameter) -> Result<String, AllocError> {
    format!(in alloc; "{parameter:?}")
}

/// An answer as words.
pub fn answer_text(alloc: Global, answer: ReturnAnswer) -> Result<String, AllocError> {
    match answer {
        ReturnAnswer::Nothing => format!(in alloc; "nothing"),
        ReturnAnswer::Start(done) | ReturnAnswer::Report(done) => done_text(alloc, done),
        ReturnAnswer::Stop => format!(in alloc; "stopped"),
        ReturnAnswer::Get(Ok(parameter)) => parameter_text(alloc, parameter),
        ReturnAnswer::Get(Err(why)) => done_text(alloc, Err(why)),
    }
}

/// A report as words: the frames without errors and all frames, the locks of frames, symbols,
/// subcarrier and carrier, and the production status.
pub fn report_text(alloc: Global, report: Option<ReturnNumbers>) -> Result<String, AllocError> {
    let Some(n) = report else {
        return format!(in alloc; "-");
    };
    let (good, all) = (n.error_free, n.delivered);
    let (frames, symbols) = (n.frame_sync, n.symbol);
    let (subcarrier, carrier, production) = (n.subcarrier, n.carrier, n.production);
    format!(in alloc; "{good} of {all}, {frames}{symbols}{subcarrier}{carrier} {production}")
}
