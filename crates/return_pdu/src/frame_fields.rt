use cds_time::Cds;
use sle_common::{AntennaId, Credentials};
use sle_numbers::FrameQuality;

/// The fields of a frame; the quality stands for RAF alone.
#[derive(Clone, Copy)]
pub(crate) struct FrameFields<'a> {
    pub credentials: Credentials<'a>,
    pub ert: Cds,
    pub antenna: AntennaId<'a>,
    pub continuity: i32,
    pub quality: Option<FrameQuality>,
    pub note: Option<&'a [u8]>,
    pub octets: &'a [u8],
}
