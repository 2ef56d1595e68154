//! A rolling host with one worker logs what the plain host logs. The function does nothing: its contract is the law.
ghost use Rattle.one_worker.specs.Runs.{OneWorkerLogsTheSame};

use host_fits::the_shipped_host_is_steady;
use round_fits::the_rolling_host_is_steady;

/// With one worker a whole run of the rolling host has in its log the commands that a whole run of the plain host has: those of the
/// first phase's requests, then for each further phase a nextEpoch, the renewal of each shard's element in the order of the shards,
/// and the phase's requests; and those of the last close.
pub fn one_worker_logs_the_same()
    ensures same { OneWorkerLogsTheSame }
{
    the_shipped_host_is_steady();
    the_rolling_host_is_steady();
}
