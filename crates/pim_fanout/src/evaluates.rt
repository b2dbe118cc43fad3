//! The state as a refresh of the forwarding cache sees it.
ghost use Rattle.std.specs.Prelude.{◌≡◌, IfSome};
ghost use Rattle.pim_fanout.specs.Before.{name_key};
ghost use Rattle.pim_macros.specs.Rows.{ShowsAnswers};
ghost use Rattle.pim_macros.specs.Sights.{IsSourceSight};
ghost use Rattle.pim_model.specs.Cache.{answers};
ghost use Rattle.pim_model.specs.State.{State};
ghost use Rattle.pim_model.specs.Tables.{has_row};
ghost use Rattle.pim_trie.specs.Meter.{raised};

use crate::before::{has_fact, sight_of};
use pim_macros::{Evaluations, Made, SourceSight, row_by_sight};
use pim_state::World;
use pim_trie::Meter;
use pim_types::SourceGroup;

/// A state as a refresh of the forwarding cache sees it. A function over any type with this trait has no other call of the
/// state: it lists no sources, and evaluates no macro but by `row`, which counts.
pub trait Evaluates {
    /// The whole state.
    ghost state: { Self → State };

    /// Whether there is a fact of the source.
    fn has_fact(&self, name: SourceGroup) -> bool
        ensures { result ≡ has_row (state self.now).sources (name_key name) };

    /// The row of a source, evaluated from its sight: the given one if it is of this source, else a new one. The number of
    /// evaluated rows rises by one, and the meter by the nodes visited.
    fn row(
        &self,
        name: SourceGroup,
        given: Option<&SourceSight>,
        meter: &mut Meter,
        evaluated: &mut Evaluations,
    ) -> Made
        requires { IfSome given (λ sight. IsSourceSight (state self.now) sight.now) }
        ensures group { result.group ≡ name.group }
        ensures source { result.source ≡ name.source }
        ensures answers { ShowsAnswers result.answers (answers (state self.now) name.group.bits name.source.bits) }
        ensures counted { evaluated.new ≡ raised evaluated.old 1 };
}

impl Evaluates for World {
    ghost state = { λ w. w };

    fn has_fact(&self, name: SourceGroup) -> bool {
        has_fact(self, name)
    }

    fn row(
        &self,
        name: SourceGroup,
        given: Option<&SourceSight>,
        meter: &mut Meter,
        evaluated: &mut Evaluations,
    ) -> Made {
        let sight = sight_of(self, name, given, meter);
        row_by_sight(self, &sight, evaluated)
    }
}
