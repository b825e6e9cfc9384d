// What a user asks a provider for.
ghost use Rattle.std.specs.Prelude.{◌≡◌, IsTrue, IfOk, IfSome};
ghost use Rattle.user_task.specs.Fitting.{fits_gvcid};
ghost use Rattle.user_line.specs.Line.{texts_of};
ghost use Rattle.user_words.specs.Plan.{raf_of, rcf_of, cltu_of, report_read, FitsAsked};
ghost use Rattle.user_words.specs.Plan.{when_read, quality_read, channel_read, first_read, cycle_read};

use crate::word::read_one;
use cds_time::Cds;
use octet_core::Memory;
use sle_common::Gvcid;
use sle_numbers::RequestedFrameQuality;
use std::alloc::Global;
use words::{ChannelWord, Number, NumberOf, Short, When};

/// What a user asks a provider for.
#[derive(Clone, Copy, Debug)]
pub enum Asked {
    /// Frames of return all frames, from one earth receive time to another, where they are given.
    Raf {
        start: Option<Cds>,
        stop: Option<Cds>,
        quality: RequestedFrameQuality,
        /// Seconds between the status reports that are wanted, from 2 to 600, where any are.
        report: Option<u16>,
    },
    /// Frames of return channel frames, from one earth receive time to another, where they are
    /// given.
    Rcf {
        start: Option<Cds>,
        stop: Option<Cds>,
        channel: Gvcid,
        /// Seconds between the status reports that are wanted, from 2 to 600, where any are.
        report: Option<u16>,
    },
    /// That it radiates the CLTUs of the input, the first of which has this identification.
    Cltu {
        first: u32,
        /// Seconds between the status reports that are wanted, from 2 to 600, where any are.
        report: Option<u16>,
    },
}

impl Asked {
    // Frames of return all frames, by three words and the further one.
    pub(crate) fn raf(
        alloc: Global,
        start: &str,
        stop: &str,
        quality: &str,
        more: &[&str],
    ) -> Result<Option<Asked>, Memory>
        ensures exact { IfOk result (λ asked. asked ≡ raf_of start.now stop.now quality.now
            (texts_of more.now)) }
        ensures fits { IfOk result (λ asked. IfSome asked FitsAsked) }
    {
        let Some(start) = when_of(alloc, start)? else {
            return Ok(None);
        };
        let Some(stop) = when_of(alloc, stop)? else {
            return Ok(None);
        };
        let Some(quality) = quality_of(alloc, quality)? else {
            return Ok(None);
        };
        let Some(report) = report_of(alloc, more)? else {
            return Ok(None);
        };
        Ok(Some(Asked::Raf {
            start,
            stop,
            quality,
            report,
        }))
    }

    // Frames of return channel frames, by three words and the further one.
    pub(crate) fn rcf(
        alloc: Global,
        start: &str,
        stop: &str,
        channel: &str,
        more: &[&str],
    ) -> Result<Option<Asked>, Memory>
        ensures exact { IfOk result (λ asked. asked ≡ rcf_of start.now stop.now channel.now
            (texts_of more.now)) }
        ensures fits { IfOk result (λ asked. IfSome asked FitsAsked) }
    {
        let Some(start) = when_of(alloc, start)? else {
            return Ok(None);
        };
        let Some(stop) = when_of(alloc, stop)? else {
            return Ok(None);
        };
        let Some(channel) = channel_of(alloc, channel)? else {
            return Ok(None);
        };
        let Some(report) = report_of(alloc, more)? else {
            return Ok(None);
        };
        Ok(Some(Asked::Rcf {
            start,
            stop,
            channel,
            report,
        }))
    }

    // That CLTUs are radiated, by a word and the further one.
    pub(crate) fn cltu(alloc: Global, first: &str, more: &[&str]) -> Result<Option<Asked>, Memory>
        ensures exact { IfOk result (λ asked. asked ≡ cltu_of first.now (texts_of more.now)) }
        ensures fits { IfOk result (λ asked. IfSome asked FitsAsked) }
    {
        let Some(first) = first_of(alloc, first)? else {
            return Ok(None);
        };
        let Some(report) = report_of(alloc, more)? else {
            return Ok(None);
        };
        Ok(Some(Asked::Cltu { first, report }))
    }
}

// The cycle of status reports by the further word, where it is there.
fn report_of(alloc: Global, more: &[&str]) -> Result<Option<Option<u16>>, Memory>
    ensures { IfOk result (λ report. report ≡ report_read (texts_of more.now)) }
{
    match more {
        [] => Ok(Some(None)),
        [word] => match cycle_of(alloc, word)? {
            Some(cycle) => Ok(Some(Some(cycle))),
            None => Ok(None),
        },
        _ => Ok(None),
    }
}

#[tactic(auto, unfolding(crate::specs::Plan::cycle_read))]
fn cycle_of(alloc: Global, word: &str) -> Result<Option<u16>, Memory>
    ensures { IfOk result (λ cycle. cycle ≡ cycle_read word.now) }
{
    read_one::<Short<2, 600>>(alloc, word)
}

#[tactic(auto, unfolding(crate::specs::Plan::when_read))]
fn when_of(alloc: Global, word: &str) -> Result<Option<Option<Cds>>, Memory>
    ensures { IfOk result (λ when. when ≡ when_read word.now) }
{
    read_one::<When>(alloc, word)
}

#[tactic(auto, unfolding(crate::specs::Plan::quality_read))]
fn quality_of(alloc: Global, word: &str) -> Result<Option<RequestedFrameQuality>, Memory>
    ensures { IfOk result (λ quality. quality ≡ quality_read word.now) }
{
    read_one::<NumberOf<RequestedFrameQuality>>(alloc, word)
}

#[tactic(auto, unfolding(crate::specs::Plan::channel_read), using(crate::proofs::Fitting::channel_fits))]
fn channel_of(alloc: Global, word: &str) -> Result<Option<Gvcid>, Memory>
    ensures exact { IfOk result (λ channel. channel ≡ channel_read word.now) }
    ensures fits { IfOk result (λ channel. IfSome channel (λ g. IsTrue (fits_gvcid g))) }
{
    read_one::<ChannelWord>(alloc, word)
}

#[tactic(auto, unfolding(crate::specs::Plan::first_read))]
fn first_of(alloc: Global, word: &str) -> Result<Option<u32>, Memory>
    ensures { IfOk result (λ first. first ≡ first_read word.now) }
{
    read_one::<Number<0, 4_294_967_295>>(alloc, word)
}
