//! How an audit ends.
ghost use Rattle.std.specs.Prelude.{◌≡◌};
ghost use Rattle.fastver_top.specs.Auditing.{audit_end, audit_end_status};

use record_text::Exhibit;
use report_text::{BundleEnd, Status};

/// How an audit ends: there is something to exhibit, or it ends as a check of the same bundle.
#[derive(Clone, Copy, Debug, PartialEq, Eq)]
pub enum AuditEnd {
    /// There is something to exhibit.
    Exhibit,
    /// There is nothing, and the report ends so.
    Bundle(BundleEnd),
}

impl AuditEnd {
    /// The end of an audit that shows this, where the report of a check ends so.
    pub fn of(exhibit: &Exhibit, end: BundleEnd) -> AuditEnd
        ensures value { result ≡ audit_end exhibit.now end }
    {
        match exhibit {
            Exhibit::Clean => AuditEnd::Bundle(end),
            Exhibit::Strings(_, _) | Exhibit::Multisets(_, _, _) => AuditEnd::Exhibit,
        }
    }

    /// The status of a run that ends so.
    pub fn status(&self) -> Status
        ensures value { result ≡ audit_end_status self.now }
    {
        match self {
            AuditEnd::Exhibit => Status::Exhibit,
            AuditEnd::Bundle(end) => end.status(),
        }
    }
}
