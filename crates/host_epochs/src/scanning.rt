//! What a worker makes of a content that it scans.
ghost use Rattle.std.specs.Prelude.{◌≡◌, ◌≢◌, ◌≤◌, IfSome, IfNone, Some};
ghost use Rattle.host_shard.specs.Content.{pending, vacant};
ghost use Rattle.host_shard.specs.Shown.{shown_content};
ghost use Rattle.host_plan.specs.Plan.{IsOpenAt, IsPastEnd, clock_after};
ghost use Rattle.host_epochs.specs.Scan.{scanned};

use host_plan::renewed;
use host_shard::Content;
use lamport_clocks::Clock;
use record_text::Element;

/// Renews the element with which a content waits, and answers it as it was: it is taken in, and this worker hands it out again
/// with the clock's next counter, with no touch counted any more. None comes where the two counters that this takes pass their
/// end, and then content and clock are as before.
pub fn scan(content: &mut Content, worker: u16, clock: &mut Clock) -> Option<Element>
    requires waits { shown_content content.old ≢ vacant }
    requires open { IsOpenAt clock.old (shown_content content.old) }
    ensures element { IfSome result (λ element. pending (shown_content content.old) ≡ Some element) }
    ensures content { IfSome result (λ element. shown_content content.new ≡ scanned worker (shown_content content.old) clock.old) }
    ensures clock { IfSome result (λ element. clock.new ≡ clock_after (shown_content content.old) clock.old) }
    ensures within { IfSome result (λ element. clock.new.at.counter ≤ clock.old.end) }
    ensures ended { IfNone result (IsPastEnd (shown_content content.old) clock.old) }
    ensures as_before { IfNone result ((shown_content content.new ≡ shown_content content.old) × (clock.new ≡ clock.old)) }
{
    match content {
        Content::Cold(shard) => {
            let later = renewed(clock, shard.stamp)?;
            let found = shard.pending();
            shard.forget_touches();
            shard.stamp = later.at();
            shard.evictor = worker;
            *clock = later;
            Some(found)
        }
        Content::Hot(kept) => {
            let later = renewed(clock, kept.stamp)?;
            let found = kept.pending();
            kept.touches = 0;
            kept.stamp = later.at();
            kept.evictor = worker;
            *clock = later;
            Some(found)
        }
        Content::Vacant => unreachable!(),
    }
}
