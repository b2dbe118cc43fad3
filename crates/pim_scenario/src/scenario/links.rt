//! Links, numbered as they are named.
ghost use Rattle.std.specs.Prelude.{◌≡◌, [], Some, IfOk, OnOk, position, string_bytes};
ghost use Rattle.pim_scenario.specs.Scenario.{IsNumbered, place_in, with_name};

use super::Link;
use std::alloc::{AllocError, Global};

/// The names of links so far, in the order of their numbers.
#[derive(Drop)]
pub(super) struct LinkNames<'a> {
    names: Vec<&'a str>,
}

impl<'a> LinkNames<'a> {
    ghost use Rattle.std.specs.Str.{bytes_eq};
    ghost use Rattle.pim_scenario.specs.Links.{names_in};

    /// No names.
    pub(super) fn new(alloc: Global) -> Self
        ensures { names_in result ≡ [] }
    {
        LinkNames {
            names: Vec::new(alloc),
        }
    }

    /// The link of that name, with the next number where the name is new.
    pub(super) fn link(&mut self, alloc: Global, name: &'a str) -> Result<Link, AllocError>
        ensures names { OnOk result (names_in self.new ≡ with_name (names_in self.old) name.entry.now) }
        ensures named { IfOk result (λ link. string_bytes link.name ≡ name.entry.now) }
        ensures numbered { IfOk result (IsNumbered (names_in self.new)) }
    {
        let number = self.number(name)?;
        let name = String::from_str(alloc, name)?;
        Ok(Link { number, name })
    }

    /// The number of a name: its place, at the end where it is new.
    fn number(&mut self, name: &'a str) -> Result<usize, AllocError>
        ensures names { OnOk result (names_in self.new ≡ with_name (names_in self.old) name.entry.now) }
        ensures place { IfOk result (λ number.
            place_in (names_in self.new) name.entry.now ≡ Some number) }
    {
        if let Some(number) = self.known(name) {
            return Ok(number);
        }
        let number = self.names.len();
        self.names.push(name)?;
        Ok(number)
    }

    /// The number of a name that is there.
    fn known(&self, name: &str) -> Option<usize>
        ensures { result ≡ position (λ known. bytes_eq known.now name.now) self.now.names.items }
    {
        self.names.iter().position(|known| *known == name)
    }
}
