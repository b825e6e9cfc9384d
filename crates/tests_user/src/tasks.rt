// The tasks of the rows, by their names: what is done, and behind a blank the hash function of the
// credentials, where there are any.
use cds_time::{Cds, Rest};
use isp1_auth::Hash;
use octet_core::{Memory, Octets};
use sle_common::{Channel, Gvcid, InstanceId};
use sle_numbers::{RequestedFrameQuality, ServiceType};
use std::alloc::Global;
use user_task::{CltuLine, Cltus, Signing, Task, Work};

const RAF: &str = "sagr=1.spack=P.rsl-fg=1.raf=onlc1";

const RCF: &str = "sagr=1.spack=P.rsl-fg=1.rcf=onlc1";

const CLTU: &str = "sagr=1.spack=P.fsl-fg=1.cltu=cltu1";

// 20,000 days, and a second behind it.
const EARLIEST: Cds = Cds {
    days: 20_000,
    millis: 0,
    rest: Rest::Micros(0),
};

const LATEST: Cds = Cds {
    days: 20_000,
    millis: 1_000,
    rest: Rest::Micros(0),
};

const CHANNEL: Gvcid = Gvcid {
    spacecraft: 1,
    version: 1,
    channel: Channel::Virtual(63),
};

// All frames, and the good ones of that second.
const ALL: Work = Work::Raf {
    start: None,
    stop: None,
    quality: RequestedFrameQuality::AllFrames,
    report: None,
};

// All frames, and a status report each 30 seconds.
const ALL_REPORTED: Work = Work::Raf {
    start: None,
    stop: None,
    quality: RequestedFrameQuality::AllFrames,
    report: Some(30),
};

const SOME: Work = Work::Raf {
    start: Some(EARLIEST),
    stop: Some(LATEST),
    quality: RequestedFrameQuality::GoodFramesOnly,
    report: None,
};

const ONE_CHANNEL: Work = Work::Rcf {
    start: None,
    stop: None,
    channel: CHANNEL,
    report: None,
};

const CHANNEL_REPORTED: Work = Work::Rcf {
    start: None,
    stop: None,
    channel: CHANNEL,
    report: Some(2),
};

// Telecommand 7 may be radiated at any time; the others not before 20000/0/0, and a notice of their
// radiation is wanted.
fn line_of(alloc: Global, place: u32) -> Result<CltuLine, Memory> {
    Ok(CltuLine {
        id: place.saturating_add(7),
        earliest: if place == 0 { None } else { Some(EARLIEST) },
        latest: None,
        radiation_delay: 5,
        wanted: place > 0,
        octets: Octets::copy_of(alloc, &[0xaa, 0, 7])?,
    })
}

fn telecommands(alloc: Global, count: u32, report: Option<u16>) -> Result<Work, Memory> {
    let mut lines = Vec::new(alloc);
    for place in 0..count {
        lines.push(line_of(alloc, place)?)?;
    }
    Ok(Work::Cltu {
        first: 7,
        cltus: Cltus::from_lines(lines),
        report,
    })
}

fn work_of(alloc: Global, name: &str) -> Result<Work, Memory> {
    match name {
        "raf" => Ok(ALL),
        "raf-some" => Ok(SOME),
        "rcf" => Ok(ONE_CHANNEL),
        "raf-report" => Ok(ALL_REPORTED),
        "rcf-report" => Ok(CHANNEL_REPORTED),
        "cltu-0" => telecommands(alloc, 0, None),
        "cltu-1" => telecommands(alloc, 1, None),
        "cltu-2" => telecommands(alloc, 2, None),
        "cltu-0-report" => telecommands(alloc, 0, Some(30)),
        "cltu-2-report" => telecommands(alloc, 2, Some(600)),
        "show-rcf" => Ok(Work::Show {
            service: ServiceType::RtnChFrames,
        }),
        "show-cltu" => Ok(Work::Show {
            service: ServiceType::FwdCltu,
        }),
        _ => Ok(Work::Show {
            service: ServiceType::RtnAllFrames,
        }),
    }
}

fn instance_of(alloc: Global, service: ServiceType) -> Result<InstanceId, Memory> {
    let text = match service {
        ServiceType::RtnAllFrames => RAF,
        ServiceType::RtnChFrames => RCF,
        ServiceType::FwdCltu => CLTU,
    };
    InstanceId::parse_text(alloc, text).map_err(|_| Memory)
}

fn signing_of(alloc: Global, name: &str) -> Result<Signing, Memory> {
    let hash = match name {
        "sha1" => Hash::Sha1,
        "sha256" => Hash::Sha256,
        _ => return Ok(Signing::Unused),
    };
    let octets = Octets::copy_of(alloc, &[1, 2, 3, 4, 5, 6])?;
    Ok(Signing::Used { hash, octets })
}

fn signed_by(
    alloc: Global,
    work: Work,
    instance: InstanceId,
    signing: Signing,
) -> Result<Task, Memory> {
    Ok(Task {
        name: Octets::copy_of(alloc, b"MOC")?,
        signing,
        instance,
        draw: 1,
        work,
    })
}

fn signed(alloc: Global, work: Work, instance: InstanceId, signing: &str) -> Result<Task, Memory> {
    let signing = signing_of(alloc, signing)?;
    signed_by(alloc, work, instance, signing)
}

fn done(alloc: Global, work: Work, signing: &str) -> Result<Task, Memory> {
    let instance = instance_of(alloc, work.service())?;
    signed(alloc, work, instance, signing)
}

/// The task of a name.
pub fn task_of(alloc: Global, name: &str) -> Result<Task, Memory> {
    let (work, signing) = name.split_once(' ').unwrap_or((name, ""));
    done(alloc, work_of(alloc, work)?, signing)
}
