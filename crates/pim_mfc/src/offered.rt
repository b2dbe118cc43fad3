//! What a data plane is offered of any source.
ghost use Rattle.pim_macros.specs.Rows.{answers_of};
ghost use Rattle.pim_mfc.specs.Shown.{ShowsOffered, KnownOfferIsShown, UnknownOfferIsShown, known_offer, unknown_offer};

use crate::row::{OffloadRow, offload};
use pim_ifset::IfSet;
use pim_macros::SourceAnswers;

/// What a data plane is offered of a source.
#[derive(Clone, Copy)]
pub struct Offered {
    /// Whether the source has a fact. If so, what is offered is valid until an event lists the source as changed; if
    /// not, until an event may have disturbed it.
    pub is_known: bool,
    pub row: OffloadRow,
}

impl Offered {
    /// What is offered of a source with a fact, by the answers of its row of the cache.
    pub fn known(row: &SourceAnswers) -> Offered
        ensures { ShowsOffered result (known_offer (answers_of row.now)) }
    {
        Offered {
            is_known: true,
            row: offload(row),
        }
    }

    /// What is offered of a source without a fact: it has no timer to set, so a packet that shows it alive is the
    /// router's.
    pub fn unknown(row: &SourceAnswers) -> Offered
        ensures { ShowsOffered result (unknown_offer (answers_of row.now)) }
    {
        let known = offload(row);
        Offered {
            is_known: false,
            row: OffloadRow {
                incoming: known.incoming,
                outgoing: known.outgoing,
                alive: IfSet::new(),
                to_core: known.to_core.union(known.alive),
            },
        }
    }
}

/// Where a row shows the answers of a state, what is made of it shows what is offered of a source with a fact.
#[tactic(auto, using(crate::proofs::OfferedAsShown::shown_is_known))]
pub fn shown_is_known()
    ensures { KnownOfferIsShown }
{}

/// Where a row shows the answers of a state, what is made of it shows what is offered of a source without a fact.
#[tactic(auto, using(crate::proofs::OfferedAsShown::shown_is_unknown))]
pub fn shown_is_unknown()
    ensures { UnknownOfferIsShown }
{}
