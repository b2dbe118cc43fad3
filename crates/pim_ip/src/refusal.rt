//! Why input is refused, with its numbers and words.
use std::fmt;
use thiserror::Error;

/// Why input was refused. A refused event, list of routes or configuration has changed nothing.
///
/// 1 to 9 are about the bytes of a packet, 20 to 26 and 75 about an event, 27 about a move between
/// routers, 30 to 38 and 70 about a configuration and 39 about a scenario.
#[derive(Clone, Copy, PartialEq, Eq, Debug, Error)]
pub enum Refusal {
    Short = 1,
    BadVersion = 2,
    BadChecksum = 3,
    BadLength = 4,
    BadAddress = 5,
    NotMulticast = 6,
    OldVersion = 7,
    UnknownType = 8,
    Fragment = 9,
    MomentBack = 20,
    MomentFar = 21,
    NoInterface = 22,
    InterfaceDown = 23,
    Full = 24,
    BadRoutes = 25,
    BadRps = 26,
    BadMove = 27,
    InterfaceCount = 30,
    InterfaceAddress = 31,
    InterfaceLength = 32,
    Overlap = 33,
    BadLimit = 34,
    BadQuerier = 35,
    BadDelay = 36,
    ConfiguredRoutes = 37,
    ConfiguredRps = 38,
    BadScenario = 39,
    OwnAddresses = 70,
    PlacesDontFit = 73,
    BadCandidates = 76,
}

impl Refusal {
    ghost use Rattle.std.specs.Prelude.{◌≡◌};
    ghost use Rattle.pim_ip.specs.Refusal.{refusal_number};

    /// The number by which the refusal is known in scenarios and printed lines.
    pub fn number(self) -> u8
        ensures { result ≡ refusal_number self }
    {
        self as u8
    }

    /// What is wrong, in English.
    pub fn words(self) -> &'static str {
        match self {
            Refusal::Short => "a field is missing",
            Refusal::BadVersion => "another version",
            Refusal::BadChecksum => "a checksum is wrong",
            Refusal::BadLength => "a length is wrong",
            Refusal::BadAddress => "an address is wrong",
            Refusal::NotMulticast => "an address is no group",
            Refusal::OldVersion => "an IGMP message of version 1 or 2",
            Refusal::UnknownType => "an IGMP message of unknown type",
            Refusal::Fragment => "a fragment",
            Refusal::MomentBack => "the moment is past",
            Refusal::MomentFar => "the moment is too far ahead",
            Refusal::NoInterface => "no such interface",
            Refusal::InterfaceDown => "the interface is down",
            Refusal::Full => "the limit on facts is reached",
            Refusal::BadRoutes => "a list of routes is wrong",
            Refusal::BadRps => "a list of RP ranges is wrong",
            Refusal::BadMove => "no such router, frame or interface on the frame's link",
            Refusal::InterfaceCount => "a router has no interface or too many",
            Refusal::InterfaceAddress => "an interface's address is wrong",
            Refusal::InterfaceLength => "an interface's prefix length is wrong",
            Refusal::Overlap => "two subnets overlap",
            Refusal::BadLimit => "the limit on facts is wrong",
            Refusal::BadQuerier => "a value of the querier is wrong",
            Refusal::BadDelay => "a LAN delay is wrong",
            Refusal::ConfiguredRoutes => "the configured routes are wrong",
            Refusal::ConfiguredRps => "the configured RP ranges are wrong",
            Refusal::BadScenario => "the scenario is wrong",
            Refusal::OwnAddresses => "the router's own addresses are wrong",
            Refusal::PlacesDontFit => "the map of places doesn't name each interface once",
            Refusal::BadCandidates => "a list of candidate RPs is wrong",
        }
    }
}

impl fmt::Display for Refusal {
    fn fmt<W: fmt::Write>(&self, f: &mut fmt::Formatter<W>) -> fmt::Result {
        f.write_str(self.words())
    }
}
