//! How many bytes were fed to the runs, which count them in 64 bits.
ghost use Rattle.std.specs.Prelude.{◌≡◌, ◌+◌, ◌≤◌, ◌<◌, ◌^◌, ℕ, length, IfOk, OnOk, OnErr};
ghost use Rattle.std.specs.List.{AllByRecursion};
ghost use Rattle.host_rounds.specs.Sealing.{log_of};

use base_words::Memory;
use host_log::LogBuffer;

// So many bytes are not fed in all.
const MOST_BYTES: u64 = 1 << 63;

/// So many bytes more, if they are not 2^63 or more in all.
pub fn with_more(bytes: u64, more: usize) -> Result<u64, Memory>
    ensures sum { IfOk result (λ all. all ≡ bytes + more) }
    ensures few { OnOk result (bytes + more < 2 ^ 63) }
    ensures many { OnErr result (2 ^ 63 ≤ bytes + more) }
{
    match bytes.checked_add(more as u64) {
        Some(all) if all < MOST_BYTES => Ok(all),
        _ => Err(Memory),
    }
}

/// So many bytes with those of all logs, if they are not too many.
pub(crate) fn bytes_with(bytes: u64, logs: &[LogBuffer]) -> Result<u64, Memory>
    ensures each { IfOk result (λ all. (number : ℕ) → number < length logs.now
        → (bytes + length (log_of number logs.now) ≤ all) × (bytes + length (log_of number logs.now) < 2 ^ 63)) }
    ensures all { IfOk result (λ all. AllByRecursion (λ log. bytes + length log ≤ all) logs.now) }
{
    let mut all = bytes;
    for log in logs {
        all = with_more(all, log.bytes().len())?;
    }
    Ok(all)
}
