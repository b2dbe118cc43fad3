//! The state as a packet on a link sees it until it is known that more comes of it than copies.
ghost use Rattle.std.specs.Prelude.{◌≡◌, IsTrue, OnOk};
ghost use Rattle.pim_model.specs.Registers.{with_keepalive};
ghost use Rattle.pim_model.specs.State.{State, interfaces_of, my_address};
ghost use Rattle.pim_model.specs.Tables.{has_row};
ghost use Rattle.pim_types.specs.Keys.{source_key};

use pim_ifaces::Interfaces;
use pim_neighbours::Neighbours;
use pim_state::World;
use pim_trie::Meter;
use pim_types::{Addr, IfaceId, SourceGroup};
use std::alloc::AllocError;

/// A state as the tests of a packet on a link, and the road of a plain one, see it. A function over any type with this
/// trait has no other call of the state: it reads no table of facts but the neighbours.
pub trait PlainWorld {
    /// The whole state.
    ghost state: { Self → State };

    /// The interfaces.
    fn interfaces(&self) -> &Interfaces
        ensures { result.now ≡ interfaces_of (state self.now) };

    /// The neighbours.
    fn neighbours(&self) -> &Neighbours
        ensures { result.now ≡ (state self.now).neighbours };

    /// The router's address on an interface.
    fn address(&self, iface: IfaceId) -> Addr
        ensures { result.bits ≡ my_address (state self.now) iface.number };

    /// KAT(S,G) is started for its whole period, as by `keep_alive` of `World`: where the source has a row no node is
    /// opened, and the meter is unchanged. The error is want of memory.
    fn keep_alive(
        &mut self,
        name: SourceGroup,
        hint: Option<usize>,
        meter: &mut Meter,
    ) -> Result<(), AllocError>
        ensures state { OnOk result (state self.new ≡ with_keepalive (state self.old) name.group.bits name.source.bits) }
        ensures kept { OnOk result (IsTrue (has_row (state self.old).sources (source_key 0 name.group.bits name.source.bits))
            → meter.new ≡ meter.old) };
}

impl PlainWorld for World {
    ghost state = { λ w. w };

    fn interfaces(&self) -> &Interfaces {
        World::interfaces(self)
    }

    fn neighbours(&self) -> &Neighbours {
        World::neighbours(self)
    }

    fn address(&self, iface: IfaceId) -> Addr {
        World::address(self, iface)
    }

    fn keep_alive(
        &mut self,
        name: SourceGroup,
        hint: Option<usize>,
        meter: &mut Meter,
    ) -> Result<(), AllocError> {
        World::keep_alive(self, name, hint, meter)
    }
}
