//! IGMP version 3 messages (RFC 3376, section 4): read as views that take no memory, and written.
#![tactic(auto)]

pub mod code;
pub mod fields;
pub mod query;
pub mod read;
pub mod records;
pub mod report;
pub mod view;
pub mod write;

pub use code::{code_value, value_code};
pub use fields::Addresses;
pub use query::QueryView;
pub use read::read_igmp;
pub use records::{RecordView, Records, Sources};
pub use report::{RecordType, ReportView};
pub use view::IgmpView;
pub use write::{GroupRecord, QueryHeader, write_query, write_report};
