// The stations that rows name.
ghost use Rattle.std.specs.Prelude.{IfOk};
ghost use Rattle.station_config.specs.Validity.{IsSite};

use station_config::{Site, SiteFault};
use std::alloc::Global;

const STATION: &[u8] = b"peer MOC none sha1 60 000000000000
peer OTHER none sha1 60 000000000000
peer SEC bind sha1 60 000000000000
raf sagr=1.spack=P.rsl-fg=1.raf=onlt1 MOC timely 1 5 60
raf sagr=1.spack=P.rsl-fg=1.raf=onlc1 MOC complete 1 5 60
raf sagr=1.spack=P.rsl-fg=1.raf=offl1 MOC offline 2 0 60
raf sagr=1.spack=P.rsl-fg=1.raf=onlc2 MOC complete 10 5 60
rcf sagr=1.spack=P.rsl-fg=1.rcf=onlc1 MOC complete 1 5 60 1/1/63
cltu sagr=1.spack=P.fsl-fg=1.cltu=cltu1 MOC 1000 100 60
";

const LEVEL_NONE: &[u8] = b"peer STATION none sha1 60 000000000000";

const LEVEL_BIND: &[u8] = b"peer STATION bind sha1 60 000000000000";

const LEVEL_ALL: &[u8] = b"peer STATION all sha1 60 000000000000";

const LEVEL_ALL_SHA256: &[u8] = b"peer STATION all sha256 60 000000000000";

/// The station of a name: one of a single peer at a level, or that of three peers and six instances.
pub fn station_of(alloc: Global, name: &str) -> Result<Site, SiteFault>
    ensures { IfOk result IsSite }
{
    let text = match name {
        "none" => LEVEL_NONE,
        "bind" => LEVEL_BIND,
        "all" => LEVEL_ALL,
        "all-sha256" => LEVEL_ALL_SHA256,
        _ => STATION,
    };
    Site::parse(alloc, text)
}
