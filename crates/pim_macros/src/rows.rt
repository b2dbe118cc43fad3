//! Rows of the forwarding cache: all that is read of a source of a group when its data comes (RFC 7761, section 4.2),
//! evaluated from one sight.
ghost use Rattle.std.specs.Option.{option_map_or};
ghost use Rattle.std.specs.Prelude.{◌≡◌, ◌&&◌, Some, false, nat_lt, not, true, ℕ};
ghost use Rattle.pim_macros.specs.Rows.{ShowsAnswers, number_of};
ghost use Rattle.pim_macros.specs.Sights.{InSource, InStar, IsSourceSight};
ghost use Rattle.pim_model.specs.AssertMacros.{could_assert, could_assert_star};
ghost use Rattle.pim_model.specs.Cache.{answers, is_contested, may_register};
ghost use Rattle.pim_model.specs.Forwarding.{has_local_receivers, is_spt_reached};
ghost use Rattle.pim_model.specs.Registers.{is_spt_wanted};
ghost use Rattle.pim_model.specs.Sets.{inherited_olist, inherited_olist_rpt};
ghost use Rattle.pim_model.specs.State.{State};
ghost use Rattle.pim_model.specs.Tables.{has_row};
ghost use Rattle.pim_model.specs.Unicast.{rpf_interface, rpf_interface_rp};
ghost use Rattle.pim_trie.specs.Meter.{raised};
ghost use Rattle.pim_state.specs.Shown.{Shows};
ghost use Rattle.pim_types.specs.Keys.{source_key, star_key};

use crate::sight::{SourceSight, StarSight};
use pim_ifset::IfSet;
use pim_state::World;
use pim_trie::Meter;
use pim_types::{Addr, IfaceId, SourceGroup};
use std::marker::Model;

/// What is read of a source of a group when its data comes. Each set says only which of the interfaces below 120 are in
/// it.
#[derive(Clone, Copy)]
pub struct SourceAnswers {
    /// immediate_olist(S,G), with the register tunnel where it is in joins(S,G).
    pub immediate: IfSet,
    /// inherited_olist(S,G), with the register tunnel too.
    pub inherited: IfSet,
    /// inherited_olist(S,G,rpt).
    pub inherited_rpt: IfSet,
    /// RPF_interface(S).
    pub rpf: Option<IfaceId>,
    /// RPF_interface(RP(G)).
    pub rp_rpf: Option<IfaceId>,
    /// SPTbit(S,G).
    pub spt: bool,
    /// S is on a link of the router.
    pub is_connected: bool,
    /// CouldRegister(S,G) without regard to KAT(S,G).
    pub may_register: bool,
    /// The register state of (S,G) isn't NoInfo.
    pub is_registered: bool,
    /// JoinDesired(S,G).
    pub is_desired: bool,
    /// inherited_olist(S,G) isn't empty; the register tunnel counts as an interface in it.
    pub flows: bool,
    /// Update_SPTbit(S,G,iif) sets SPTbit for a packet on RPF_interface(S).
    pub reaches_spt: bool,
    /// A packet on the shared tree sets KAT(S,G).
    pub watches: bool,
    /// The interfaces on which a packet that is off its tree makes the router the winner of an assert.
    pub contested: IfSet,
    /// The place of the source's own row when this was evaluated, if it had one. It is no answer, but a hint for
    /// `keep_alive` of `World`.
    pub place: Option<usize>,
}

/// How many rows were evaluated. Only `row` raises it, and nothing sets it back. The count doesn't pass `u64::MAX`.
#[derive(Drop)]
pub struct Evaluations {
    count: u64,
}

impl Model for Evaluations {
    ghost use Rattle.std.specs.Prelude.{ℕ};

    ghost Value = { ℕ };

    ghost view = { λ e. e.count };
}

impl Evaluations {
    /// No row evaluated yet.
    pub fn none() -> Self
        ensures { result ≡ 0 }
    {
        Evaluations { count: 0 }
    }

    /// How many rows were evaluated.
    pub fn count(&self) -> u64
        ensures { result ≡ self.now }
    {
        self.count
    }

    // Counts one more evaluated row.
    #[tactic(auto, unfolding(pim_trie::specs::Meter::raised))]
    fn raise(&mut self)
        ensures { self.new ≡ raised self.old 1 }
    {
        self.count = self.count.saturating_add(1);
    }
}

/// The answers of a source of a group, as `row` has evaluated them.
#[derive(Clone, Copy)]
pub struct Made {
    group: Addr,
    source: Addr,
    answers: SourceAnswers,
}

impl Model for Made {
    ghost use Rattle.pim_macros.specs.Rows.{MadeRow};

    ghost Value = { MadeRow };

    ghost view = { λ m. record { group = m.group; source = m.source; answers = m.answers } };

    ghost inverse = { λ r. record { group = r.group; source = r.source; answers = r.answers } };
}

impl Made {
    /// The group that the answers are of.
    pub fn group(&self) -> Addr
        ensures { result ≡ self.now.group }
    {
        self.group
    }

    /// The source that the answers are of.
    pub fn source(&self) -> Addr
        ensures { result ≡ self.now.source }
    {
        self.source
    }

    /// The answers of the row's source.
    pub fn answers(&self) -> SourceAnswers
        ensures { result ≡ self.now.answers }
    {
        self.answers
    }
}

impl StarSight {
    /// RPF_interface(RP(G)).
    #[tactic(auto, unfolding(pim_model::specs::Unicast::rpf_interface_rp))]
    pub fn rpf_interface(&self) -> Option<IfaceId>
        ensures { InStar self.now (λ s g. number_of result ≡ rpf_interface_rp s g) }
    {
        self.rp_path.map(|path| path.iface)
    }

    // The interfaces on which the assert of (*,G) isn't in NoInfo.
    fn asserted(&self) -> IfSet
        ensures { InStar self.now (λ s g. Shows result (λ i. has_row s.asserts (star_key i g))) }
    {
        self.lost.union(self.won)
    }
}

impl SourceSight {
    /// RPF_interface(S).
    #[tactic(auto, unfolding(pim_model::specs::Unicast::rpf_interface))]
    pub fn rpf_interface(&self) -> Option<IfaceId>
        ensures { InSource self.now (λ s g src. number_of result ≡ rpf_interface s src) }
    {
        self.path.map(|path| path.iface)
    }

    /// CouldRegister(S,G) without regard to KAT(S,G).
    #[tactic(auto, unfolding(pim_model::specs::Cache::may_register))]
    pub fn may_register(&self) -> bool
        ensures { InSource self.now (λ s g src. result ≡ may_register s g src) }
    {
        self.is_dr && self.star.has_other_rp()
    }

    /// Whether a packet on the shared tree sets KAT(S,G): it has receivers on the router's own links, and
    /// SwitchToSptDesired(S,G) holds.
    pub fn is_watched(&self) -> bool
        ensures { InSource self.now (λ s g src. result ≡ (has_local_receivers s g src && is_spt_wanted s)) }
    {
        self.has_local_receivers() && self.is_spt_wanted
    }

    /// Whether data on RPF_interface(S), if that is below 120, sets SPTbit(S,G).
    #[tactic(auto, unfolding(pim_model::specs::Unicast::rpf_interface))]
    pub fn reaches_spt(&self) -> bool
        ensures { InSource self.now (λ s g src. (i : ℕ) → nat_lt i 120 ≡ true → rpf_interface s src ≡ Some i
            → result ≡ is_spt_reached s g src i) }
    {
        match self.path {
            Some(path) if path.iface.number < IfSet::LIMIT => self.is_spt_reached(path.iface),
            _ => false,
        }
    }

    // The interfaces on which the assert of (S,G) isn't in NoInfo.
    fn asserted(&self) -> IfSet
        ensures { InSource self.now (λ s g src. Shows result (λ i. has_row s.asserts (source_key i g src))) }
    {
        self.lost.union(self.won)
    }

    // With SPTbit(S,G) set: the interfaces on which (S,G) is forwarded, CouldAssert(S,G) holds, and the assert of (S,G)
    // is in NoInfo.
    fn contested_by_source(&self) -> IfSet
        ensures { InSource self.now (λ s g src. Shows result (λ i.
            inherited_olist s g src i && could_assert s g src i && not (has_row s.asserts (source_key i g src)))) }
    {
        self.inherited_olist()
            .intersection(self.could_assert())
            .minus(self.asserted())
    }

    // Without SPTbit(S,G): the interfaces on which (S,G,rpt) is forwarded, CouldAssert(*,G) holds, and the assert of
    // (*,G) is in NoInfo.
    fn contested_by_group(&self) -> IfSet
        ensures { InSource self.now (λ s g src. Shows result (λ i.
            inherited_olist_rpt s g src i && could_assert_star s g i && not (has_row s.asserts (star_key i g)))) }
    {
        self.inherited_olist_rpt()
            .intersection(self.star.could_assert())
            .minus(self.star.asserted())
    }

    /// The interfaces on which a packet that is off its tree makes the router the winner of an assert: it forwards
    /// there, CouldAssert holds, and the assert of (S,G), or without SPTbit of (*,G), is in NoInfo (RFC 7761, section
    /// 4.6).
    #[tactic(auto, unfolding(pim_model::specs::Cache::is_contested))]
    pub fn contested(&self) -> IfSet
        ensures { InSource self.now (λ s g src. Shows result (is_contested s g src)) }
    {
        if self.spt {
            self.contested_by_source()
        } else {
            self.contested_by_group()
        }
    }

    // All answers of a source, with `is_registered` as given: the register state of (S,G) isn't NoInfo.
    #[tactic(auto, unfolding(pim_model::specs::Cache::answers))]
    fn answers(&self, is_registered: bool, place: Option<usize>) -> SourceAnswers
        ensures { (s : State) → IsSourceSight s self.now
            → is_registered ≡ has_row s.registers (source_key 0 self.now.star.group.bits self.now.source.bits)
            → ShowsAnswers result (answers s self.now.star.group.bits self.now.source.bits) }
    {
        SourceAnswers {
            immediate: self.immediate_olist(),
            inherited: self.inherited_olist(),
            inherited_rpt: self.inherited_olist_rpt().without_tunnel(),
            rpf: self.rpf_interface(),
            rp_rpf: self.star.rpf_interface(),
            spt: self.spt,
            is_connected: self.is_connected(),
            may_register: self.may_register(),
            is_registered,
            is_desired: self.join_desired(),
            flows: !self.is_inherited_empty(),
            reaches_spt: self.reaches_spt(),
            watches: self.is_watched(),
            contested: self.contested().without_tunnel(),
            place,
        }
    }
}

// Whether the register state of (S,G) isn't NoInfo.
#[tactic(auto, unfolding(pim_model::specs::Tables::has_row))]
fn is_registered(world: &World, name: SourceGroup) -> bool
    ensures { result ≡ has_row world.now.registers (source_key 0 name.group.bits name.source.bits) }
{
    world.store().register(name.key()).is_some()
}

/// A row of the forwarding cache: the answers of a source of a group in the present state, by its sight. The number of
/// evaluated rows rises by one.
pub fn row_by_sight(world: &World, sight: &SourceSight, evaluated: &mut Evaluations) -> Made
    requires { IsSourceSight world.now sight.now }
    ensures group { result.group ≡ sight.now.star.group }
    ensures source { result.source ≡ sight.now.source }
    ensures answers { ShowsAnswers result.answers (answers world.now sight.now.star.group.bits sight.now.source.bits) }
    ensures counted { evaluated.new ≡ raised evaluated.old 1 }
{
    evaluated.raise();
    let name = sight.name();
    let place = world.store().source_place(name);
    let answers = sight.answers(is_registered(world, name), place);
    Made {
        group: name.group,
        source: name.source,
        answers,
    }
}

/// A row of the forwarding cache: the answers of a source of a group in the present state, evaluated from one sight.
/// The meter rises by the nodes visited. The number of evaluated rows rises by one.
pub fn row(world: &World, name: SourceGroup, meter: &mut Meter, evaluated: &mut Evaluations) -> Made
    ensures group { result.group ≡ name.group }
    ensures source { result.source ≡ name.source }
    ensures answers { ShowsAnswers result.answers (answers world.now name.group.bits name.source.bits) }
    ensures counted { evaluated.new ≡ raised evaluated.old 1 }
{
    let sight = SourceSight::with_star(world, name, meter);
    row_by_sight(world, &sight, evaluated)
}
