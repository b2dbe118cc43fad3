//! Which hosts of older versions are heard (RFC 3376, section 9.2), and the version of an interface's queries (section
//! 7.3.1).
ghost use Rattle.std.specs.Prelude.{◌≡◌};
ghost use Rattle.igmp_older.specs.Modes.{hears, queries_heard};

use crate::older::OlderKind;

/// The setting of an interface. A host that is no member can forge older messages: one report of version 1 makes its group
/// ignore Leaves for [Older Host Present Interval], one of version 2 its source filters.
#[derive(Clone, Copy)]
pub enum OlderHosts {
    /// Hosts of version 1 and of version 2.
    All,
    /// Hosts of version 2 alone, so that Leaves are always heard.
    VersionTwo,
    /// None: the interface is as without the front.
    Nobody,
}

impl OlderHosts {
    /// Whether a message that says this is heard.
    pub fn hears(self, kind: OlderKind) -> bool
        ensures { result ≡ hears self kind }
    {
        match (self, kind) {
            (OlderHosts::All, _) => true,
            (OlderHosts::VersionTwo, OlderKind::ReportOne) => false,
            (OlderHosts::VersionTwo, _) => true,
            (OlderHosts::Nobody, _) => false,
        }
    }
}

/// The version in which an interface queries. All routers of a link have to query in one version.
#[derive(Clone, Copy)]
pub enum QueryVersion {
    /// IGMPv2: queries leave cut behind their group.
    Two,
    /// IGMPv3.
    Three,
}

impl QueryVersion {
    /// Whether older queries are heard on an interface that queries in this version and hears these hosts.
    pub fn hears_queries(self, hosts: OlderHosts) -> bool
        ensures { result ≡ queries_heard hosts self }
    {
        match (hosts, self) {
            (OlderHosts::Nobody, QueryVersion::Three) => false,
            _ => true,
        }
    }
}
