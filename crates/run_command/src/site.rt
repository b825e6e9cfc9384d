// The configuration of a run.
ghost use Rattle.std.specs.Prelude.{◌≡◌, ℕ, IfOk, IfErr, Some};
ghost use Rattle.station_config.specs.Validity.{IsSite};
ghost use Rattle.run_command.specs.Configured.{Configures, NoSite};

use crate::status::RunStatus;
use octet_core::Source;
use station_config::{Site, SiteFault};
use std::alloc::Global;
use whole_input::{InputFault, read_input};

// The site that a text configures, or the status of a run that has none.
fn site_of(alloc: Global, text: &[u8]) -> Result<Site, RunStatus>
    ensures valid { IfOk result IsSite }
    ensures exact { IfOk result (Configures (Some text.now)) }
    ensures refused { (faults : ℕ) → IfErr result (λ own. NoSite own (Some text.now) faults faults) }
{
    match Site::parse(alloc, text) {
        Ok(site) => Ok(site),
        Err(SiteFault::BadLine { number, cause }) => Err(RunStatus::BadSite { number, cause }),
        Err(SiteFault::Memory) => Err(RunStatus::Memory),
    }
}

// The site that the input configures, or the status of a run that has none.
pub(crate) fn read_site<I: Source>(alloc: Global, input: &mut I) -> Result<Site, RunStatus>
    ensures valid { IfOk result IsSite }
    ensures exact { IfOk result (λ site. Configures (I.left input.old) site
        × (I.faults input.new ≡ I.faults input.old)) }
    ensures refused { IfErr result (λ own. NoSite own (I.left input.old) (I.faults input.old)
        (I.faults input.new)) }
{
    match read_input(alloc, input) {
        Ok(text) => site_of(alloc, text.as_slice()),
        Err(InputFault::ReadFault) => Err(RunStatus::ReadFault),
        Err(InputFault::TooLong) => Err(RunStatus::InputTooLong),
        Err(InputFault::Memory) => Err(RunStatus::Memory),
    }
}
