//! A worked row, computed by the kernel.
ghost use Rattle.igmp_older_saved.specs.Runs.{SavedHostHasBytes, SavedHostIsKnown};

/// A host of IGMPv1 is known after it was saved, and a group without a record isn't saved.
#[tactic(auto, unfolding(pim_types::specs::Keys::addr_cmp, pim_types::specs::Keys::key_cmp, pim_model::specs::Tables::has_row, pim_model::specs::Tables::put, pim_model::specs::Tables::row_at, igmp_older::specs::Modes::mode_of, igmp_older::specs::Presence::mode_at, igmp_older::specs::Presence::put_rows, igmp_older::specs::Presence::timers_at, crate::specs::Hosts::is_held, crate::specs::Hosts::is_running, crate::specs::Hosts::resumed_rows, crate::specs::Hosts::saved_hosts))]
pub fn saved_host_is_known()
    ensures { SavedHostIsKnown }
{}

/// The bytes of its row, with their tag.
#[tactic(auto, unfolding(pim_saved::specs::Text::key_text, crate::specs::Text::host_text, crate::specs::Text::hosts_text))]
pub fn saved_host_has_bytes()
    ensures { SavedHostHasBytes }
{}
