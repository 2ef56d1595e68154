//! What follows from the definitions of the host's commands and of the transition. These functions do nothing:
//! their contracts are the laws.
ghost use Rattle.std.specs.Prelude.{◌≡◌, ℕ, Bool, List, Ok, Err};
ghost use Rattle.lamport_clocks.specs.declared.header.Header.{Header};
ghost use Rattle.lamport_clocks.specs.Reading.{Reading};
ghost use Rattle.record_text.specs.declared.request.Request.{Request};
ghost use Rattle.record_text.specs.declared.refusal.Refusal.TheVariants.{ClockEnd};
ghost use Rattle.log_codec.specs.declared.command.Command.{Command};
ghost use Rattle.merkle_records.specs.Scheme.{Scheme};
ghost use Rattle.verifier_commands.specs.declared.state.State.{State};
ghost use Rattle.verifier_commands.specs.Transition.{Rules};
ghost use Rattle.host_shard.specs.declared.link.Link.{Link};
ghost use Rattle.host_shard.specs.Content.{Content};
ghost use Rattle.host_plan.specs.Plan.{CanServe, IsPlan, IsPastEnd, AreLinks, commands_of};
ghost use Rattle.host_plan.specs.declared.plans.Plan.{Plan};
ghost use Rattle.host_laws.specs.Running.{Told, run, IsHistory};
ghost use Rattle.host_laws.specs.Served.{IsResting, CanTake, PlanRuns};
ghost use Rattle.host_laws.specs.SettingUp.{CanSetUp, SetupRuns};

/// Commands that run are accepted, and what is told of them is the verifier's history.
pub fn a_run_is_the_history()
    ensures history { (rules : Rules) (state last : State) (commands : List Command) (told : Told)
        → run rules state commands ≡ Ok (told, last) → IsHistory rules state commands told }
{}

/// A verifier at rest accepts the plan of a request, whichever content owns the key: it takes in what waited, serves the
/// request, hands out what then waits, and rests again. Nothing is asked of the digests.
pub fn a_plan_runs()
    ensures runs { (absent : Bool) (rules : Rules) (state : State) (content after : Content) (request : Request) (plan : Plan) (later : Reading)
        → CanTake rules state content → CanServe rules.scheme.format.longest rules.scheme.digest content request.key
        → IsPlan absent rules.scheme.digest rules.number content request state.clock plan after later
        → PlanRuns rules state content after request plan later }
{}

/// Where the two counters that a request takes would pass the clock's end, its commands are refused for that, and for
/// nothing else.
pub fn a_request_past_the_end_is_refused()
    ensures refused { (absent : Bool) (rules : Rules) (state : State) (content : Content) (request : Request) (links : List Link)
        → IsResting rules state content → CanServe rules.scheme.format.longest rules.scheme.digest content request.key
        → AreLinks content request.key links → IsPastEnd content state.clock
        → run rules state (commands_of absent content links request state.clock) ≡ Err ClockEnd }
{}

/// Verifier 0 accepts the commands of the setup from its opening state: it takes nothing in, and hands out what the new
/// shards wait with.
pub fn the_setup_runs()
    ensures runs { (scheme : Scheme) (header : Header) (bits : ℕ) → CanSetUp header bits → SetupRuns scheme header bits }
{}
