// Sessions by scripts.
//
// A line of a script is a step, `=` and what it leads to: the calls of the link with the octets
// that were offered, and what the round came to. Behind a line `new` a new station begins.
ghost use Rattle.station_config.specs.Validity.{IsSite};

use named::hex_of;
use station::Station;
use station_config::Site;
use std::alloc::{AllocError, Global};
use std::process::Abort;
use step::step_of;

mod channels;
mod forward;
mod named;
mod raf;
mod rows;
mod signed;
mod station;
mod step;
mod telling;

// Whether a text has these words, of which some name messages.
fn is_spelled(told: &str, words: &str) -> bool {
    told.split_whitespace()
        .eq(words.split_whitespace().map(hex_of))
}

// Whether a station leads a step to what these words say.
fn leads_to(
    alloc: Global,
    site: &Site,
    station: &mut Station,
    step: &str,
    words: &str,
) -> Result<bool, AllocError>
    requires { IsSite site.now }
{
    let mut told = String::new(alloc);
    station.play(site, &step_of(step), &mut told)?;
    Ok(is_spelled(&told, words))
}

// The first line of a script that doesn't lead to what it says.
fn wrong_line<'a>(
    alloc: Global,
    site: &Site,
    script: &'a str,
) -> Result<Option<&'a str>, AllocError>
    requires { IsSite site.now }
{
    let mut station = Station::new(alloc, site)?;
    for line in script.lines() {
        let (step, words) = line.split_once('=').unwrap_or((line, ""));
        if !leads_to(alloc, site, &mut station, step, words)? {
            return Ok(Some(line));
        }
    }
    Ok(None)
}

// The same of scripts with a line `new` between them.
fn wrong_line_of<'a>(
    alloc: Global,
    site: &Site,
    scripts: &'a str,
) -> Result<Option<&'a str>, AllocError>
    requires { IsSite site.now }
{
    for script in scripts.split("new\n") {
        let wrong = wrong_line(alloc, site, script)?;
        if wrong.is_some() {
            return Ok(wrong);
        }
    }
    Ok(None)
}

const SITE: &[u8] = b"\
peer MOC none sha1 60 000000000000\n\
peer OTHER none sha1 60 000000000000\n\
peer SEC bind sha1 60 000000000000\n\
raf sagr=1.spack=P.rsl-fg=1.raf=onlt1 MOC timely 1 5 60\n\
raf sagr=1.spack=P.rsl-fg=1.raf=onlc1 MOC complete 1 5 60\n\
raf sagr=1.spack=P.rsl-fg=1.raf=offl1 MOC offline 2 0 60\n\
raf sagr=1.spack=P.rsl-fg=1.raf=onlc2 MOC complete 10 5 60\n\
rcf sagr=1.spack=P.rsl-fg=1.rcf=onlc1 MOC complete 1 5 60 1/1/63\n\
cltu sagr=1.spack=P.fsl-fg=1.cltu=cltu1 MOC 1000 100 60\n";

// A site and a script.
const SCRIPTS: [(&[u8], &str); 22] = [
    (SITE, rows::REFUSED),
    (SITE, rows::OUT_OF_PLACE),
    (SITE, rows::MALFORMED),
    (SITE, rows::ENDED),
    (SITE, rows::AGREED),
    (SITE, rows::REPEATED),
    (SITE, rows::ONE_A_ROUND),
    (SITE, rows::STALLED),
    (SITE, rows::TIMED),
    (SITE, rows::DEAD),
    (SITE, rows::LOST),
    (SITE, rows::FAILING),
    (SITE, rows::LONGEST),
    (SITE, raf::STARTED),
    (SITE, raf::KEPT),
    (SITE, raf::DROPPED),
    (SITE, raf::OFFLINE),
    (SITE, raf::TWO),
    (SITE, raf::FAILED),
    (raf::SITE_SIGNED, raf::SIGNED),
    (signed::SITE_SHA1, signed::SHA1),
    (signed::SITE_SHA256, signed::SHA256),
];

// The same of a site's text.
fn wrong_line_at<'a>(
    alloc: Global,
    site: &[u8],
    scripts: &'a str,
) -> Result<Option<&'a str>, AllocError> {
    match Site::parse(alloc, site) {
        Ok(site) => wrong_line_of(alloc, &site, scripts),
        Err(_) => Err(AllocError),
    }
}

#[test]
fn sessions_lead_to_what_their_scripts_say(rt: HostRuntime) {
    for (site, scripts) in SCRIPTS {
        assert_eq!(rt; wrong_line_at(rt.alloc(), site, scripts), Ok(None));
    }
}

#[test]
fn channels_reports_and_parameters_lead_to_what_their_scripts_say(rt: HostRuntime) {
    for scripts in [channels::SELECTED, channels::ASKED, channels::CYCLED] {
        assert_eq!(rt; wrong_line_at(rt.alloc(), SITE, scripts), Ok(None));
    }
}

#[test]
fn cltus_lead_to_what_their_scripts_say(rt: HostRuntime) {
    for scripts in [forward::QUEUED, forward::TOLD, forward::BESIDES] {
        assert_eq!(rt; wrong_line_at(rt.alloc(), SITE, scripts), Ok(None));
    }
}
