// The parameters of each service.
use crate::ground::check;
use crate::instance::{Kind, Terms};
use sle_numbers::ReturnDeliveryMode;
use std::test::Fail;

const COMPLETE: Terms = Terms {
    kind: Kind::Raf,
    mode: ReturnDeliveryMode::CompleteOnline,
    size: 10,
    latency: 5,
};

const BOTH: &str = "
get 4 = BufferSize(10);
get 6 = Mode(1);
get 15 = Latency(Some(5));
get 26 = Cycle(None);
report 60 = ok;
get 26 = Cycle(Some(60));
report stop = ok;
get 26 = Cycle(None);
get 29 = Timeout(60);
get 0 = Specific(0);
get 5 = Specific(0);
get 9 = Specific(0);
get 30 = Specific(0);
get 65535 = Specific(0);";

// The last START that was done tells what was asked for.
const RAF: &str = "
get 27 = Quality(2);
get 28 = Specific(0);
start 5 4 0 = Specific(3);
get 27 = Quality(2);
start none none 1 = ok;
get 27 = Quality(1);
stop = stopped;
get 27 = Quality(1);
start 5 4 0 = Specific(3);
get 27 = Quality(1);
start none none 0 = ok;
get 27 = Quality(0);";

const RCF: &str = "
get 28 = Channel(None);
get 27 = Specific(0);
start none none 1/1/62 = Specific(5);
get 28 = Channel(None);
start none none 1/1/63 = ok;
get 28 = Channel(Some(Gvcid { spacecraft: 1, version: 1, channel: Virtual(63) }));
stop = stopped;
start none none 9/1/63 = Specific(5);
get 28 = Channel(Some(Gvcid { spacecraft: 1, version: 1, channel: Virtual(63) }));
start none none 2/0/* = ok;
get 28 = Channel(Some(Gvcid { spacecraft: 2, version: 0, channel: Master }));";

const OFFLINE: &str = "
get 6 = Mode(2);
get 15 = Latency(None);";

const TIMELY: &str = "
get 6 = Mode(0);
get 15 = Latency(Some(5));";

#[test]
fn parameters_are_told_so(rt: HostRuntime) -> Result<(), Fail> {
    for kind in [Kind::Raf, Kind::Rcf] {
        let complete = Terms { kind, ..COMPLETE };
        let offline = Terms {
            mode: ReturnDeliveryMode::Offline,
            ..complete
        };
        let timely = Terms {
            mode: ReturnDeliveryMode::TimelyOnline,
            ..complete
        };
        let own = match kind {
            Kind::Raf => RAF,
            Kind::Rcf => RCF,
        };
        for (terms, rows) in [
            (complete, BOTH),
            (complete, own),
            (offline, OFFLINE),
            (timely, TIMELY),
        ] {
            check(&rt, rt.alloc(), &terms, rows)?;
        }
    }
    Ok(())
}
