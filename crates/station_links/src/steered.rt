// A link in memory during a round, known by the steering with which the round began.
ghost use Rattle.std.specs.Prelude.{◌≡◌, ◌<◌, Some, [], IfOk, OnErr};
ghost use Rattle.cds_time.specs.declared.cds.TheConstants.{MOMENT_END};
ghost use Rattle.station_config.specs.Validity.{IsSite};
ghost use Rattle.session_core.specs.Lists.{GoesRound};
ghost use Rattle.session_core.specs.Outcome.{come_to};
ghost use Rattle.station_links.specs.Connected.{Leads};

use link_model::{Link, MemoryLink, Poll};
use octet_core::{Memory, Offer};
use session_core::{Session, Spoken};
use station_book::Book;
use station_config::Site;
use std::marker::{Brand, Model, PhantomData};

/// The steering of a link as a round begins. Each call picks it.
pub trait Origin: Send + Drop {
    ghost use Rattle.link_model.specs.Steering.{Steering};

    ghost steering: { Steering };
}

impl Origin for Brand {
    ghost use Rattle.std.specs.Prelude.{[]};
    ghost use Rattle.link_model.specs.Steering.{unsteered};

    ghost steering = { unsteered [] };
}

// The calls that it tells are answered as that steering has it, and it is steered as they leave it.
#[derive(Drop)]
struct Steered<K: Origin> {
    link: MemoryLink,
    of: PhantomData<K>,
}

impl<K: Origin> Model for Steered<K> {
    ghost use Rattle.link_model.specs.MemoryLink.{LinkState};
    ghost use Rattle.station_links.specs.Connected.{Leads};

    ghost Value = { LinkState };

    ghost view = { λ steered. steered.link };

    ghost invariant = { λ steered. Leads K.steering steered.link.told steered.link.steering };
}

impl<K: Origin> Link for Steered<K> {
    ghost calls = { λ steered. steered.told };

    ghost faults = { λ steered. steered.faults };

    ghost stalls = { λ steered. steered.stalls };

    #[tactic(auto, using(crate::proofs::Leading::leads_polled))]
    fn poll(&mut self, into: &mut [u8]) -> Poll {
        self.link.poll(into)
    }

    #[tactic(auto, using(crate::proofs::Leading::leads_offered))]
    fn offer(&mut self, octets: &[u8]) -> Offer {
        self.link.offer(octets)
    }
}

/// A round of a session over a link in memory.
pub(crate) fn make_round<K: Origin>(
    session: &mut Session,
    link: MemoryLink,
    site: &Site,
    book: &mut Book,
    reading: u128,
) -> Result<(Spoken, MemoryLink), Memory>
    requires site { IsSite site.now }
    requires reading { reading < MOMENT_END }
    requires origin { link.steering ≡ K.steering }
    requires told { link.told ≡ Some [] }
    ensures lists { IfOk result (λ r. GoesRound site.now reading (Some []) r.1.told book.old
        book.new session.old session.new) }
    ensures leads { IfOk result (λ r. Leads K.steering r.1.told r.1.steering) }
    ensures outcome { IfOk result (λ r. r.0 ≡ come_to session.new) }
    ensures err { OnErr result (book.new ≡ book.old) }
{
    let mut steered = Steered::<K> {
        link,
        of: PhantomData,
    };
    let spoken = session.round(site, book, reading, &mut steered)?;
    Ok((spoken, steered.link))
}
