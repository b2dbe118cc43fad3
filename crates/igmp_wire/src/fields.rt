//! The numbers and addresses of a message, by their places.
ghost use Rattle.std.specs.Prelude.{◌≡◌, ◌+◌, ◌≤◌, length};
ghost use Rattle.byteorder.specs.Endian.{big_from};

use byteorder::{BigEndian, ByteOrder};
use pim_ip::Addr;
use std::marker::Model;

/// The 16 bits at a place.
pub(crate) fn number_at(message: &[u8], place: usize) -> u16
    requires { place + 2 ≤ length message.now }
    ensures { result ≡ big_from place 2 message.now }
{
    BigEndian::read_u16(&message[place..])
}

/// The address at a place.
pub(crate) fn address_at(message: &[u8], place: usize) -> Addr
    requires { place + 4 ≤ length message.now }
    ensures { result.bits ≡ big_from place 4 message.now }
{
    Addr::from(BigEndian::read_u32(&message[place..]))
}

/// The sources of a query, in their order.
#[derive(Drop)]
pub struct Addresses<'a> {
    message: &'a [u8],
    place: usize,
    left: usize,
}

impl<'a> Model for Addresses<'a> {
    ghost use Rattle.std.specs.Prelude.{ℕ, ◌+◌, ◌*◌, ◌≤◌, List, length};
    ghost use Rattle.igmp_wire.specs.Queries.{addresses_at};

    ghost Value = { List ℕ };

    ghost view = { λ a. addresses_at a.message.now a.place a.left };

    ghost invariant = { λ a. a.place + 4 * a.left ≤ length a.message.now };
}

impl<'a> Addresses<'a> {
    ghost use Rattle.std.specs.Prelude.{◌*◌};
    ghost use Rattle.igmp_wire.specs.Queries.{addresses_at};

    /// The addresses from a place on.
    pub(crate) fn new(message: &'a [u8], place: usize, left: usize) -> Addresses<'a>
        requires { place + 4 * left ≤ length message.now }
        ensures { result ≡ addresses_at message.now place left }
    {
        Addresses {
            message,
            place,
            left,
        }
    }
}

impl<'a> Iterator for Addresses<'a> {
    ghost use Rattle.std.specs.Iterator.{YieldsFirstBy, item_count};

    type Item = Addr;

    ghost next_gives = { YieldsFirstBy (λ address. address.bits) (λ rest. rest) };

    ghost remaining = { item_count (λ rest. rest) };

    #[tactic(auto, using(crate::proofs::AddressLaws::addresses_taken))]
    fn next(&mut self) -> Option<Addr> {
        if self.left == 0 {
            return None;
        }
        let address = address_at(self.message, self.place);
        self.place += 4;
        self.left -= 1;
        Some(address)
    }
}
