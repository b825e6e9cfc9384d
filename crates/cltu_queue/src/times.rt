// Times of CLTUs, and the moments that they name.
ghost use Rattle.std.specs.Prelude.{◌≡◌, ◌<◌, IfSome};
ghost use Rattle.cds_time.specs.declared.cds.TheConstants.{MOMENT_END};
ghost use Rattle.cltu_queue.specs.Times.{moment_at, has_moment, is_above};

use cds_time::Cds;

// The moment of a time, where the time is known and names one.
pub(crate) fn moment_at(time: Option<Cds>) -> Option<u128>
    ensures exact { result ≡ moment_at time }
    ensures below { IfSome result (λ moment. moment < MOMENT_END) }
{
    time?.moment()
}

// Whether a time names a moment, where it is known.
pub(crate) fn has_moment(time: Option<Cds>) -> bool
    ensures { result ≡ has_moment time }
{
    match time {
        None => true,
        Some(time) => time.moment().is_some(),
    }
}

// Whether both are known, and the first is above the second.
pub(crate) fn is_above(first: Option<u128>, second: Option<u128>) -> bool
    ensures { result ≡ is_above first second }
{
    match (first, second) {
        (Some(first), Some(second)) => second < first,
        _ => false,
    }
}
