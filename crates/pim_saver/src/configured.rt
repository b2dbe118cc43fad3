//! Configured values.
ghost use Rattle.pim_saved.specs.Fits.{FitsCandidate, FitsInterface, FitsPrefix, FitsRange, FitsRoute, FitsSettings};
ghost use Rattle.pim_saved.specs.Reading.{candidate_at, interface_at, prefix_at, range_at, route_at, settings_at};
ghost use Rattle.pim_saved.specs.Text.{candidate_text, interface_text, prefix_text, range_text, route_text, settings_text};
ghost use Rattle.std.specs.Prelude.{◌≡◌, ◌++◌, OnOk};

use crate::saved::Saved;
use pim_ip::{Addr, Prefix};
use pim_saved::SavedRefusal;
use pim_types::{IfaceId, InterfaceConfig, Route, RpCandidate, RpRange, Settings, SptSwitch};
use std::alloc::AllocError;

impl Saved for InterfaceConfig {
    ghost text = { interface_text };

    ghost reading = { interface_at };

    ghost fits = { FitsInterface };

    #[tactic(auto, unfolding(pim_saved::specs::Text::interface_text))]
    fn write(self, out: &mut Vec<u8>) -> Result<(), AllocError> {
        self.address.write(out)?;
        self.length.write(out)?;
        self.priority.write(out)?;
        self.propagation_delay.write(out)?;
        self.override_interval.write(out)?;
        Ok(())
    }

    #[tactic(auto, unfolding(pim_saved::specs::Reading::interface_at))]
    fn read(bytes: &[u8]) -> Result<(InterfaceConfig, &[u8]), SavedRefusal> {
        let (address, rest) = Addr::read(bytes)?;
        let (length, rest) = u32::read(rest)?;
        let (priority, rest) = u32::read(rest)?;
        let (propagation_delay, rest) = u32::read(rest)?;
        let (override_interval, rest) = u32::read(rest)?;
        Ok((
            InterfaceConfig {
                address,
                length,
                priority,
                propagation_delay,
                override_interval,
            },
            rest,
        ))
    }
}

impl Saved for Prefix {
    ghost text = { prefix_text };

    ghost reading = { prefix_at };

    ghost fits = { FitsPrefix };

    #[tactic(auto, unfolding(pim_saved::specs::Text::prefix_text))]
    fn write(self, out: &mut Vec<u8>) -> Result<(), AllocError> {
        self.address.write(out)?;
        self.length.write(out)?;
        Ok(())
    }

    #[tactic(auto, unfolding(pim_saved::specs::Reading::prefix_at))]
    fn read(bytes: &[u8]) -> Result<(Prefix, &[u8]), SavedRefusal> {
        let (address, rest) = Addr::read(bytes)?;
        let (length, rest) = u32::read(rest)?;
        Ok((Prefix { address, length }, rest))
    }
}

impl Saved for Route {
    ghost text = { route_text };

    ghost reading = { route_at };

    ghost fits = { FitsRoute };

    #[tactic(auto, unfolding(pim_saved::specs::Text::route_text))]
    fn write(self, out: &mut Vec<u8>) -> Result<(), AllocError> {
        self.prefix.write(out)?;
        self.next_hop.write(out)?;
        self.iface.write(out)?;
        self.preference.write(out)?;
        self.metric.write(out)?;
        Ok(())
    }

    #[tactic(auto, unfolding(pim_saved::specs::Reading::route_at))]
    fn read(bytes: &[u8]) -> Result<(Route, &[u8]), SavedRefusal> {
        let (prefix, rest) = Prefix::read(bytes)?;
        let (next_hop, rest) = Addr::read(rest)?;
        let (iface, rest) = IfaceId::read(rest)?;
        let (preference, rest) = u32::read(rest)?;
        let (metric, rest) = u32::read(rest)?;
        Ok((
            Route {
                prefix,
                next_hop,
                iface,
                preference,
                metric,
            },
            rest,
        ))
    }
}

impl Saved for RpRange {
    ghost text = { range_text };

    ghost reading = { range_at };

    ghost fits = { FitsRange };

    #[tactic(auto, unfolding(pim_saved::specs::Text::range_text))]
    fn write(self, out: &mut Vec<u8>) -> Result<(), AllocError> {
        self.prefix.write(out)?;
        self.rp.write(out)?;
        Ok(())
    }

    #[tactic(auto, unfolding(pim_saved::specs::Reading::range_at))]
    fn read(bytes: &[u8]) -> Result<(RpRange, &[u8]), SavedRefusal> {
        let (prefix, rest) = Prefix::read(bytes)?;
        let (rp, rest) = Addr::read(rest)?;
        Ok((RpRange { prefix, rp }, rest))
    }
}

impl Saved for RpCandidate {
    ghost text = { candidate_text };

    ghost reading = { candidate_at };

    ghost fits = { FitsCandidate };

    #[tactic(auto, unfolding(pim_saved::specs::Text::candidate_text))]
    fn write(self, out: &mut Vec<u8>) -> Result<(), AllocError> {
        self.prefix.write(out)?;
        self.rp.write(out)?;
        self.priority.write(out)?;
        self.hash_length.write(out)?;
        Ok(())
    }

    #[tactic(auto, unfolding(pim_saved::specs::Reading::candidate_at))]
    fn read(bytes: &[u8]) -> Result<(RpCandidate, &[u8]), SavedRefusal> {
        let (prefix, rest) = Prefix::read(bytes)?;
        let (rp, rest) = Addr::read(rest)?;
        let (priority, rest) = u32::read(rest)?;
        let (hash_length, rest) = u32::read(rest)?;
        Ok((
            RpCandidate {
                prefix,
                rp,
                priority,
                hash_length,
            },
            rest,
        ))
    }
}

impl Saved for Settings {
    ghost text = { settings_text };

    ghost reading = { settings_at };

    ghost fits = { FitsSettings };

    #[tactic(auto, unfolding(pim_saved::specs::Text::settings_text))]
    fn write(self, out: &mut Vec<u8>) -> Result<(), AllocError> {
        self.limit.write(out)?;
        self.spt.write(out)?;
        self.robustness.write(out)?;
        self.query_interval.write(out)?;
        self.query_response_interval.write(out)?;
        self.last_member_query_interval.write(out)?;
        Ok(())
    }

    #[tactic(auto, unfolding(pim_saved::specs::Reading::settings_at))]
    fn read(bytes: &[u8]) -> Result<(Settings, &[u8]), SavedRefusal> {
        let (limit, rest) = u32::read(bytes)?;
        let (spt, rest) = SptSwitch::read(rest)?;
        let (robustness, rest) = u32::read(rest)?;
        let (query_interval, rest) = u32::read(rest)?;
        let (query_response_interval, rest) = u32::read(rest)?;
        let (last_member_query_interval, rest) = u32::read(rest)?;
        Ok((
            Settings {
                limit,
                spt,
                robustness,
                query_interval,
                query_response_interval,
                last_member_query_interval,
            },
            rest,
        ))
    }
}
