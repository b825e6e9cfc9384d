// The frames of a rehearsal.
ghost use Rattle.std.specs.Prelude.{◌≡◌, ◌<◌, [], ◌∷◌, IfOk};
ghost use Rattle.record_form.specs.Entry.{entry_of};
ghost use Rattle.rehearsal.specs.Frames.{time_at, quality_at, body_at, octets_at, entry_at};
ghost use Rattle.rehearsal.specs.Frames.{ramp_octets};

use cds_time::{Cds, Rest};
use octet_core::{Memory, Octets};
use record_form::Entry;
use sle_numbers::FrameQuality;
use std::alloc::{AllocError, Global};

// The octets of a frame behind its first two.
const BODY_OCTETS: usize = 1_113;

// The octets of a frame's body go up by one in a circle, so that each body is a stretch of these.
const RAMP_OCTETS: usize = 256 + BODY_OCTETS;

/// What the frames are made of.
#[derive(Debug, Drop)]
pub struct Parts {
    alloc: Global,
    // Octets that go up by one in a circle.
    ramp: Vec<u8>,
    antenna: Octets,
    ghost made: { (ramp.items ≡ ramp_octets) × (antenna ≡ 0x41 ∷ []) },
}

impl Parts {
    pub fn new(alloc: Global) -> Result<Parts, Memory> {
        let antenna = Octets::copy_of(alloc, &[0x41])?;
        Ok(Parts {
            alloc,
            ramp: ramp(alloc)?,
            antenna,
        })
    }

    /// Frame `i` as an entry.
    pub fn frame(&self, i: u32) -> Result<Entry, Memory>
        requires { i < 20000 }
        ensures { IfOk result (λ entry. entry_of entry ≡ entry_at i) }
    {
        Ok(Entry::Frame {
            ert: time(i),
            quality: quality(i),
            antenna: self.antenna.clone()?,
            lost: 0,
            octets: Octets::from_vec(self.alloc, self.octets(i)?)?,
        })
    }

    // The octets of frame `i`.
    #[tactic(auto, unfolding(crate::specs::Frames::octets_at))]
    fn octets(&self, i: u32) -> Result<Vec<u8>, AllocError>
        requires { i < 20000 }
        ensures { IfOk result (λ octets. octets.items ≡ octets_at i) }
    {
        let mut octets = Vec::with_capacity(self.alloc, 2 + BODY_OCTETS)?;
        octets.push(0x02)?;
        octets.push(0xa0 + 2 * (i % 8) as u8)?;
        octets.extend_from_slice(self.body(i))?;
        Ok(octets)
    }

    // The octets of frame `i` behind the first two.
    fn body(&self, i: u32) -> &[u8]
        requires { i < 20000 }
        ensures { result.now ≡ body_at i }
    {
        let start = (i as usize + 2) % 256;
        &self.ramp[start..start + BODY_OCTETS]
    }
}

/// The earth receive time of frame `i`.
pub fn time(i: u32) -> Cds
    requires { i < 20000 }
    ensures { result ≡ time_at i }
{
    Cds {
        days: 20_000,
        millis: 10 * i,
        rest: Rest::Micros(0),
    }
}

// The quality of frame `i`.
fn quality(i: u32) -> FrameQuality
    ensures { result ≡ quality_at i }
{
    if i % 7 == 3 {
        FrameQuality::Erred
    } else {
        FrameQuality::Good
    }
}

fn ramp(alloc: Global) -> Result<Vec<u8>, AllocError>
    ensures { IfOk result (λ ramp. ramp.items ≡ ramp_octets) }
{
    let mut ramp = Vec::with_capacity(alloc, RAMP_OCTETS)?;
    for place in 0..RAMP_OCTETS {
        ramp.push((place % 256) as u8)?;
    }
    Ok(ramp)
}
