//! Laws of the definitions, each the contract of a function with nothing to do.

ghost use Rattle.law_events.specs.Adjacent.{AdjoinsGoes, AdjoinsNames, AdjoinsSettles, AdjoinsStays, EndAdjoins, HelloAdjoins, LeadsNowhere};

/// What goes after a change of neighbours is of the keys of what the change moves.
pub fn adjoins_goes()
    ensures { AdjoinsGoes }
{}

/// All that follows of a change of neighbours follows of the keys of what it moves.
pub fn adjoins_settles()
    ensures { AdjoinsSettles }
{}

/// A source with a fact that the keys of what is moved don't touch isn't named.
pub fn adjoins_names()
    ensures { AdjoinsNames }
{}

/// A source that the keys of what is moved don't touch has the same answers in the end, where the router is the DR of the
/// same interfaces.
pub fn adjoins_stays()
    ensures { AdjoinsStays }
{}

/// A Hello moves only what depends on its neighbour, and what asks whether the router is the DR of its interface, where
/// that changes.
pub fn hello_adjoins()
    ensures { HelloAdjoins }
{}

/// The expiry of a neighbour moves only what depends on that neighbour, and what asks whether the router is the DR of its
/// interface, where that changes.
pub fn end_adjoins()
    ensures { EndAdjoins }
{}

/// No path leads to a neighbour whose address is no next hop, no RP and no source with a fact.
pub fn leads_nowhere()
    ensures { LeadsNowhere }
{}
