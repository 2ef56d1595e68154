//! What an audit of logs shows.
ghost use Rattle.std.specs.Prelude.{◌≡◌, ℕ, List, IfOk, None, length, map};
ghost use Rattle.lamport_clocks.specs.declared.header.Header.{Header};
ghost use Rattle.record_hash.specs.Functions.{DigestFunctions};
ghost use Rattle.merkle_records.specs.Scheme.{scheme_of};
ghost use Rattle.soundness.specs.Clash.{none_evicted};
ghost use Rattle.lamport_clocks.specs.Header.{IsHeader};
ghost use Rattle.soundness.specs.Exhibit.{exhibit_of};
ghost use Rattle.soundness.specs.Sound.{histories_read};
ghost use Rattle.collision_exhibit.specs.Audited.{AreAudited, audited_courses};
ghost use Rattle.collision_exhibit.specs.Elements.{HaveOwnStamps};
ghost use Rattle.collision_exhibit.specs.Shown.{audit_events_within, clash_among, evicted_elements, shown_by, exhibit_among};

use crate::audit_event::AuditEvent;
use crate::clash::first_clash;
use crate::elements::{added_of, evicted_of, first_uneven};
use crate::events::ordered_events;
use base_words::Memory;
use lamport_clocks::Header;
use record_hash::Digests;
use record_text::Exhibit;
use std::alloc::Global;
use verifier_run::{Run, run_logs};

/// What an audit of logs shows, that of verifier 0 first, over so many epochs from the header's first on: the
/// elements of the first epoch whose added ones are no permutation of its evicted ones; or else the texts of the
/// first record that came back by its digest with another value than it went out with; or else nothing.
///
/// Its time is near linear in the bytes of the logs: each is run once, and audit events and elements are sorted.
pub fn audit<D: Digests>(
    alloc: Global,
    d: &D,
    header: &Header,
    logs: &[Vec<u8>],
    epochs: u64,
) -> Result<Exhibit, Memory>
    requires header { IsHeader header.now }
    requires count { length logs.now ≡ header.now.verifiers }
    ensures exhibit { IfOk result (λ exhibit. exhibit ≡ exhibit_of header.now.first epochs
        (histories_read (scheme_of (D.functions d.now) header.now) header.now (map (λ log. log.items) logs.now))) }
{
    let runs = run_logs(alloc, d, header, logs)?;
    exhibit_of_runs(alloc, runs, header.first, epochs)
}

/// The same, of runs of all logs that kept audit events.
pub fn exhibit_of_runs(
    alloc: Global,
    runs: Vec<Run<AuditEvent>>,
    first: u32,
    epochs: u64,
) -> Result<Exhibit, Memory>
    requires audited { AreAudited (map (λ run. run.course) runs.items) }
    ensures exhibit { (functions : DigestFunctions) (header : Header) (logs : List (List ℕ))
        → map (λ run. run.course) runs.items ≡ audited_courses functions header logs
        → IfOk result (λ exhibit. exhibit ≡ exhibit_of first epochs
        (histories_read (scheme_of functions header) header logs)) }
{
    let audited = ordered_events(alloc, runs)?;
    shown(alloc, &audited, first, epochs)
}

// What audit events in order show over so many epochs from the first on.
fn shown(alloc: Global, audited: &[AuditEvent], first: u32, epochs: u64) -> Result<Exhibit, Memory>
    requires own_stamps { HaveOwnStamps (evicted_elements audited.now) }
    ensures exhibit { IfOk result (λ exhibit. exhibit ≡ exhibit_among first epochs audited.now) }
{
    match first_uneven(alloc, audited, first, epochs)? {
        Some(epoch) => {
            let added = added_of(alloc, audited, epoch)?;
            let evicted = evicted_of(alloc, audited, epoch)?;
            Ok(Exhibit::Multisets(epoch, added, evicted))
        }
        None => strings(alloc, audited, first, epochs),
    }
}

// The first clash among audit events in order of so many epochs from the first on, if there is one.
fn strings(
    alloc: Global,
    audited: &[AuditEvent],
    first: u32,
    epochs: u64,
) -> Result<Exhibit, Memory>
    ensures exhibit { IfOk result (λ exhibit. exhibit ≡ shown_by audited.now None (clash_among none_evicted (audit_events_within first epochs audited.now))) }
{
    match first_clash(alloc, audited, first, epochs)? {
        Some(clash) => Ok(Exhibit::Strings(clash.evicted, clash.added)),
        None => Ok(Exhibit::Clean),
    }
}
