//! The audit events that runs kept, in the one order of their moments.
ghost use Rattle.std.specs.Prelude.{◌≡◌, map, IfOk};
ghost use Rattle.stamp_order.specs.Merged.{merged};
ghost use Rattle.collision_exhibit.specs.AuditEvent.{audit_moment};
ghost use Rattle.collision_exhibit.specs.Audited.{audit_events_among};

use crate::audit_event::AuditEvent;
use base_words::Memory;
use stamp_order::Moment;
use std::alloc::Global;
use verifier_run::Run;

/// The audit events of all runs, in the order of their moments.
pub(crate) fn ordered_events(
    alloc: Global,
    runs: Vec<Run<AuditEvent>>,
) -> Result<Vec<AuditEvent>, Memory>
    ensures ordered { IfOk result (λ audited. audited.items ≡ merged audit_moment (audit_events_among (map (λ run. run.course) runs.items))) }
{
    let mut audited = events_of(alloc, runs)?;
    audited.sort_by_key(moment_of)?;
    Ok(audited)
}

// The audit events of all runs, one run after another.
fn events_of(alloc: Global, runs: Vec<Run<AuditEvent>>) -> Result<Vec<AuditEvent>, Memory>
    ensures events { IfOk result (λ audited. audited.items ≡ audit_events_among (map (λ run. run.course) runs.items)) }
{
    let mut audited = Vec::new(alloc);
    for run in runs {
        let mut kept = run.into_store().into_vec();
        // The first are taken as they lie: of one verifier that is all.
        if audited.is_empty() {
            audited = kept;
        } else {
            audited.append(&mut kept)?;
        }
    }
    Ok(audited)
}

// When an audit event was done.
fn moment_of(item: &AuditEvent) -> Moment
    ensures value { result ≡ audit_moment item.now }
{
    item.moment
}
