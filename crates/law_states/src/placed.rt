//! A running router that is given another configuration with a map of its places: what that is, and what holds of it. Each
//! law is the contract of a function with nothing to do.
ghost use Rattle.law_states.specs.PlacedLaws.{AddressesGoAlong, FactsGoWithTheirLink, IdentityPlacesAreReload, NeighboursStayOrGo, OrdersAreAccepted, PlacedAreConfigured, PlacedReloadIsUnder, PlacedReloadLeavesRest, PlacesAreApart, PlacesAreThere, PlacesGoByTheMap};

/// What a reload by places leaves is at rest.
pub fn placed_reload_leaves_rest()
    ensures { PlacedReloadLeavesRest }
{}

/// Where no two places are one, the fact of an interface is found at its other place, and no other fact is.
pub fn facts_go_with_their_link()
    ensures { FactsGoWithTheirLink }
{}

/// Each old place goes to an interface of the order between, and each of those to a place of the new configuration.
pub fn places_are_there()
    ensures { PlacesAreThere }
{}

/// A neighbour stays with its link, unless it is of one of the places whose neighbours go.
pub fn neighbours_stay_or_go()
    ensures { NeighboursStayOrGo }
{}

/// After a reload by places the router is under its configuration.
pub fn placed_reload_is_under()
    ensures { PlacedReloadIsUnder }
{}

/// In both moves each interface takes its address along.
pub fn addresses_go_along()
    ensures { AddressesGoAlong }
{}

/// After a reload by places only interfaces of the new configuration are up.
pub fn placed_are_configured()
    ensures { PlacedAreConfigured }
{}

/// Where each place stays at its number, and no interface gets another subnet, a reload by places is `reload`.
pub fn identity_places_are_reload()
    ensures { IdentityPlacesAreReload }
{}

/// By a map that has passed its tests no two places go to one.
pub fn places_are_apart()
    ensures { PlacesAreApart }
{}

/// By both moves together each old place goes where the map says, and those that it leaves out are past all that stay.
pub fn places_go_by_the_map()
    ensures { PlacesGoByTheMap }
{}

/// Configurations that are accepted are accepted in the order between.
pub fn orders_are_accepted()
    ensures { OrdersAreAccepted }
{}
