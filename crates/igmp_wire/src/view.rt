//! An IGMP message of either kind, read.
use crate::query::QueryView;
use crate::report::ReportView;

/// An IGMP message that was read.
#[derive(Drop)]
pub enum IgmpView<'a> {
    Query(QueryView<'a>),
    Report(ReportView<'a>),
}
