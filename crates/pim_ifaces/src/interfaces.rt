//! The interfaces of a router.
ghost use Rattle.std.specs.List.{list_all, list_any};
ghost use Rattle.std.specs.List.Sorted.{IsStrictlySortedBy};
ghost use Rattle.std.specs.Option.{option_map_or};
ghost use Rattle.std.specs.Prelude.{◌≡◌, ◌<◌, ◌≤◌, ◌==◌, false, [], length, nat_lt, slice_get, option_map, true, IfOk, IfSome, IsTrue, Ok, OnOk, OnErr, Some};
ghost use Rattle.pim_model.specs.Hellos.{hellos_triggered};
ghost use Rattle.pim_model.specs.State.{is_own_among};
ghost use Rattle.pim_model.specs.Clearing.{first_by};
ghost use Rattle.pim_model.specs.Timers.{endings, is_ending_first};
ghost use Rattle.pim_tables.specs.Ends.{due_of};
ghost use Rattle.pim_types.specs.declared.timer.TimerKind.{TimerKind as Kind};
ghost use Rattle.pim_model.specs.Tables.{change_row, drop_where, has_row, keys_in, put, row_at};
ghost use Rattle.pim_types.specs.Keys.{iface_in, iface_key, is_on, key_cmp};
ghost use Rattle.pim_model.specs.Unicast.{link_among};
ghost use Rattle.pim_ifaces.specs.Interfaces.{interfaces_test, is_up_key};
ghost use Rattle.pim_model.specs.Writing.{hellos_paid};

use crate::configured::Configured;
use crate::limits::MOST_INTERFACES;
use pim_tables::Timed;
use pim_types::fact::InterfaceRow;
use pim_types::{Addr, IfaceId, InterfaceConfig, Key, Timer};
use std::alloc::{AllocError, Global};
use std::collections::btree_map::Iter;
use std::marker::Model;

/// The configured interfaces, the own addresses of no interface, and the rows of the interfaces that are up.
pub struct Interfaces {
    configured: Configured,
    // The own addresses that are of no interface.
    addresses: Vec<Addr>,
    rows: Timed<InterfaceRow>,
}

// Written out, so that it is proved once (docs/PROOF_NOTES.md, Drops).
impl Drop for Interfaces {
    fn drop(self) {
        let Interfaces {
            configured: _,
            addresses: _,
            rows: _,
        } = self;
    }
}

impl Model for Interfaces {
    ghost use Rattle.pim_ifaces.specs.Interfaces.{IsHeld};
    ghost use Rattle.pim_model.specs.State.{InterfaceTable};

    ghost Value = { InterfaceTable };

    ghost view = { λ a. record {
      configured = record { interfaces = a.configured; addresses = a.addresses.items };
      rows = a.rows;
    } };

    ghost invariant = { λ a. IsHeld a.configured a.rows };
}

impl Interfaces {
    /// The given interfaces, all down, and own addresses of no interface. Takes memory only for the latter, and the error
    /// is want of it.
    pub fn new(
        alloc: Global,
        configured: &[InterfaceConfig],
        addresses: &[Addr],
    ) -> Result<Self, AllocError>
        requires { interfaces_test configured.now ≡ Ok tt }
        ensures { IfOk result (λ made. made ≡ record {
          configured = record { interfaces = configured.now; addresses = addresses.now };
          rows = [];
        }) }
    {
        let mut own = Vec::new(alloc);
        own.extend_from_slice(addresses)?;
        Ok(Interfaces {
            configured: Configured::new(configured),
            addresses: own,
            rows: Timed::new(alloc),
        })
    }

    /// How many interfaces are configured.
    pub fn count(&self) -> u32
        ensures count { result ≡ length self.now.configured.interfaces }
        ensures within { result ≤ MOST_INTERFACES }
    {
        self.configured.as_slice().len() as u32
    }

    /// For the proof: at most 120 interfaces are configured, so a configured interface has a number below 120. Does
    /// nothing when it runs.
    pub fn proof_few(&self)
        ensures { length self.now.configured.interfaces ≤ MOST_INTERFACES }
    {
        let _ = &self.configured;
    }

    /// For the proof: each row is under the key of an interface that is configured. Does nothing when it runs.
    pub fn proof_kinds(&self)
        ensures { IsTrue (list_all (λ e. is_up_key (length self.now.configured.interfaces) e.0) self.now.rows) }
    {
        let _ = &self.rows;
    }

    /// The configured interfaces, by their numbers.
    pub fn configured(&self) -> &[InterfaceConfig]
        ensures { result.now ≡ self.now.configured.interfaces }
    {
        self.configured.as_slice()
    }

    /// The own addresses that are of no interface, in the order in which they were given.
    pub fn addresses(&self) -> &[Addr]
        ensures { result.now ≡ self.now.configured.addresses }
    {
        self.addresses.as_slice()
    }

    /// The rows of the interfaces that are up, by rising number.
    pub fn rows(&self) -> Iter<'_, Key, InterfaceRow>
        ensures rows { result ≡ self.now.rows }
        ensures rising { IsStrictlySortedBy key_cmp (keys_in self.now.rows) }
    {
        self.rows.proof_rising();
        self.rows.rows().iter()
    }

    /// What is configured of the interface. There is none past the last.
    pub fn config(&self, iface: IfaceId) -> Option<InterfaceConfig>
        ensures { result ≡ slice_get self.now.configured.interfaces iface.number }
    {
        self.configured().get(iface.number as usize).copied()
    }

    /// Whether the interface is up.
    pub fn is_up(&self, iface: IfaceId) -> bool
        ensures up { result ≡ has_row self.now.rows (iface_key iface.number) }
        ensures configured { IsTrue result → iface.number < length self.now.configured.interfaces }
    {
        self.rows.contains(Key::iface(iface))
    }

    /// The row of the interface, if it is up.
    pub fn row(&self, iface: IfaceId) -> Option<InterfaceRow>
        ensures { result ≡ row_at self.now.rows (iface_key iface.number) }
    {
        self.rows.get(Key::iface(iface))
    }

    /// The row under the key, if there is one.
    pub fn row_at(&self, key: Key) -> Option<InterfaceRow>
        ensures { result ≡ row_at self.now.rows key }
    {
        self.rows.get(key)
    }

    /// Whether the address is one of the router's: an interface's, which may be up or not, or one of no interface.
    #[tactic(auto, unfolding(pim_model::specs::State::is_own_among))]
    pub fn is_own(&self, address: Addr) -> bool
        ensures { result ≡ is_own_among self.now.configured address.bits }
    {
        self.is_of_interface(address) || self.is_of_none(address)
    }

    // Whether the address is one of the router's that are of no interface.
    fn is_of_none(&self, address: Addr) -> bool
        ensures { result ≡ list_any (λ own. own.bits == address.bits) self.now.configured.addresses }
    {
        self.addresses().iter().any(|own| *own == address)
    }

    // Whether the address is that of an interface.
    fn is_of_interface(&self, address: Addr) -> bool
        ensures { result ≡ list_any (λ c. c.address.bits == address.bits) self.now.configured.interfaces }
    {
        match self.configured.around(address) {
            Some(number) => self.has_address(number, address),
            None => false,
        }
    }

    // Whether the address is that of the interface.
    fn has_address(&self, number: u32, address: Addr) -> bool
        ensures { result ≡ option_map_or (λ c. c.address.bits == address.bits) (slice_get self.now.configured.interfaces number) false }
    {
        match self.configured().get(number as usize) {
            Some(interface) => interface.address == address,
            None => false,
        }
    }

    /// The first interface that is up and whose subnet the address lies in.
    #[tactic(auto, unfolding(pim_model::specs::Unicast::link_among))]
    pub fn link_to(&self, address: Addr) -> Option<IfaceId>
        ensures first { option_map (λ i. i.number) result ≡ link_among self.now.configured self.now.rows address.bits }
        ensures configured { IfSome result (λ i. i.number < length self.now.configured.interfaces) }
    {
        let number = self.configured.around(address)?;
        let iface = IfaceId { number };
        if self.is_up(iface) { Some(iface) } else { None }
    }

    /// On which interface the Hello timer expires first, and when, in ms: the least by timestamp, then by key. `None`
    /// where no interface is up.
    #[tactic(auto, unfolding(pim_tables::specs::Ends::row_endings))]
    pub fn next(&self) -> Option<(u64, Timer)>
        ensures { result ≡ option_map due_of (first_by is_ending_first
            (endings Kind.Hello (λ r. Some r.hello_end) self.now.rows)) }
    {
        self.rows.next()
    }

    /// Makes the interface up, with this row. An error is want of memory, and changes nothing.
    pub fn set_up(&mut self, iface: IfaceId, row: InterfaceRow) -> Result<(), AllocError>
        requires { iface.number < length self.old.configured.interfaces }
        ensures ok { OnOk result (self.new ≡ record self.old { rows = put self.old.rows (iface_key iface.number) row }) }
        ensures err { OnErr result (self.new ≡ self.old) }
    {
        self.rows.put(Key::iface(iface), row)
    }

    /// Changes the row under the key, where there is one, to this one. An error is want of memory, and changes nothing.
    pub fn change(&mut self, key: Key, row: InterfaceRow) -> Result<(), AllocError>
        ensures to { OnOk result (self.new
            ≡ record self.old { rows = change_row (λ _. Some row) key self.old.rows }) }
        ensures err { OnErr result (self.new ≡ self.old) }
    {
        self.rows.change(key, row)
    }

    /// Takes the configured interfaces and own addresses of another, each row being of an interface that the other has. The
    /// rows stay.
    pub fn reconfigure(&mut self, other: Interfaces)
        requires { list_all (λ e. nat_lt (iface_in e.0) (length other.configured.interfaces)) self.old.rows ≡ true }
        ensures { self.new ≡ record self.old { configured = other.configured } }
    {
        let Interfaces {
            configured,
            addresses,
            rows: _,
        } = other;
        self.configured = configured;
        self.addresses = addresses;
    }

    /// Makes the interface down: its row goes, if it has one.
    pub fn set_down(&mut self, iface: IfaceId)
        ensures { self.new ≡ record self.old { rows = drop_where (is_on iface.number) self.old.rows } }
    {
        self.rows.remove(Key::iface(iface));
    }

    /// Marks that a Hello is owed on the interface, if it is up, and lets its Hello timer expire at this timestamp at
    /// the latest, in ms. The error is want of memory, and changes nothing.
    pub fn owe_hello(&mut self, iface: IfaceId, end: u64) -> Result<(), AllocError>
        ensures ok { OnOk result (self.new
            ≡ record self.old { rows = hellos_triggered iface.number end self.old.rows }) }
        ensures err { OnErr result (self.new ≡ self.old) }
    {
        let key = Key::iface(iface);
        let Some(row) = self.rows.get(key) else {
            return Ok(());
        };
        let owing = InterfaceRow {
            hello_end: row.hello_end.min(end),
            is_hello_owed: true,
            ..row
        };
        self.rows.change(key, owing)
    }

    /// Makes no Hello owed on the interface. An error is want of memory, and changes nothing.
    pub fn pay_hello(&mut self, iface: IfaceId) -> Result<(), AllocError>
        ensures ok { OnOk result (self.new ≡ record self.old { rows = hellos_paid iface.number self.old.rows }) }
        ensures err { OnErr result (self.new ≡ self.old) }
    {
        let key = Key::iface(iface);
        let Some(row) = self.rows.get(key) else {
            return Ok(());
        };
        let paid = InterfaceRow {
            is_hello_owed: false,
            ..row
        };
        self.rows.change(key, paid)
    }
}
