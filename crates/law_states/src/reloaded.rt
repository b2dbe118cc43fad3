//! What holds of a running router that is given another configuration. Each law is the contract of a function with
//! nothing to do.
ghost use Rattle.law_states.specs.ReloadLaws.{AppendedMoveNothing, DelaysMoveNothing, GoodbyeReads, HellosLeaveFirst, KeptStayUp, NextQueryIsNearAnew, NoneOfRemoved, NoOtherHello, ReloadIsUnder, ReloadLeavesRest, ReloadKeepsConfigured, SameReloadChangesNothing, SettingsMoveNothing, UntoldSaysSame};

/// A reload with the configuration that there is changes nothing, and sends nothing, where the next general queries are
/// near (`next_query_is_near`), as after any events and reloads.
pub fn same_reload_changes_nothing()
    ensures { SameReloadChangesNothing }
{}

/// A goodbye reads as a Hello that holds for no time.
pub fn goodbye_reads()
    ensures { GoodbyeReads }
{}

/// After a reload the next general query is within the query interval, by the values in force.
pub fn next_query_is_near_anew()
    ensures { NextQueryIsNearAnew }
{}

/// Other settings move no fact but those of queriers, and send nothing.
pub fn settings_move_nothing()
    ensures { SettingsMoveNothing }
{}

/// What a reload with any accepted configuration leaves is at rest.
pub fn reload_leaves_rest()
    ensures { ReloadLeavesRest }
{}

/// After a reload the router is under its configuration.
pub fn reload_is_under()
    ensures { ReloadIsUnder }
{}

/// An interface that stays is up after a reload where it was up before.
pub fn kept_stay_up()
    ensures { KeptStayUp }
{}

/// After a reload only interfaces of the new configuration are up.
pub fn reload_keeps_configured()
    ensures { ReloadKeepsConfigured }
{}

/// No fact stays of an interface that is removed.
pub fn none_of_removed()
    ensures { NoneOfRemoved }
{}

/// The Hellos that say something else leave first.
pub fn hellos_leave_first()
    ensures { HellosLeaveFirst }
{}

/// What goes after a reload's change, and what is sent upstream after it, has no Hello.
pub fn no_other_hello()
    ensures { NoOtherHello }
{}

/// A Hello that doesn't leave would say the same.
pub fn untold_says_same()
    ensures { UntoldSaysSame }
{}

/// Interfaces that are appended, and own addresses of no interface, move no fact, and nothing is sent, where the next general
/// queries are near.
pub fn appended_move_nothing()
    ensures { AppendedMoveNothing }
{}

/// Other delays alone move no fact, and nothing is sent but their Hellos, where the next general queries are near.
pub fn delays_move_nothing()
    ensures { DelaysMoveNothing }
{}
