//! The program as a call: its words, what it reads and what it writes.
ghost use Rattle.std.specs.Prelude.{◌≡◌, ◌≢◌, ◌^◌, ℕ, List, map, Some, IfSome};
ghost use Rattle.lane_sha.specs.Hmac.{key_block};
ghost use Rattle.record_hash.specs.ShaDigests.{sha_under};
ghost use Rattle.program_words.specs.Words.{asked_of};
ghost use Rattle.program_words.specs.declared.words.Asked.{Asked};
ghost use Rattle.fv_outside.specs.Consumed.{TookAtMost};
ghost use Rattle.bundle_upgrade.specs.Answer.{IsDone, KeepsReport};
ghost use Rattle.fastver_top.specs.Answers.{AnswersFor, bundle_for, CollidesFor, IsSoundFor};
ghost use Rattle.fastver_top.specs.Rules.{rules_by, CanEndWith, LeavesCounter, LeavesSink, LeavesSource, LeavesVault, ReadsWhole};

use crate::accepting::accept_text;
use crate::auditing::audit_text;
use crate::generating::serve_generated;
use crate::running::run_script;
use crate::signing::sign_text;
use bundle_upgrade::upgrade;
use check_core::{check, check_seal, resume};
use follower::follow;
use fv_outside::{Counter, Gate, Sink, Source, Vault};
use program_words::{Asked, Key, SignNumbers, WordsFault, read_words};
use record_hash::ShaDigests;
use report_text::Status;
use std::alloc::Global;
use std::sync::Wait;
use std::thread::Threads;

/// The most bytes that the program reads.
pub const INPUT_LIMIT: u64 = 1 << 40;

/// The program: it takes its words, the name of the program first, and answers how it ended.
///
/// `fastver check --key HEX` reads a bundle from the source and writes its report to the sink: a line for
/// each certified epoch and each certified operation, and a last line; with `--receipts` also what a client can keep of them. With
/// `--seal PATH` it raises the counter and writes to the vault a seal of what it came to, where the bundle is good up to its end.
/// `fastver audit --key HEX` writes what there is to exhibit of the certified epochs, and the same last line. `fastver run` with a
/// key and the numbers of a host reads a script, serves it, writes the bundle of its logs to the vault, and to the sink the
/// report of that bundle. `fastver gen` with a key, a seed and such numbers makes a script in place of reading one, serves it so,
/// and writes how often each worker got, put and deleted, in place of the report. `fastver accept --key HEX` reads a receipt and
/// a certificate, and writes whether the receipt is accepted. `fastver follow --key HEX` reads a bundle and writes the map that
/// its certified operations make, and the last line of its report. `fastver upgrade --key HEX` reads a bundle and writes it in version 3
/// of the format, where its report ends with `done`. `fastver resume --key HEX` reads a seal whose number the counter has, and goes on
/// with the check, by the frames behind it. `fastver sign` with a key and the number of a client reads requests, a line each, and writes them
/// as that client signs them. The vault is left as it is but by a run, a load and a check that seals, and the counter but by
/// such a check and by what goes on from a seal.
#[tactic(auto, using(crate::proofs::AnswerLemmas::left_is_sound))]
pub fn fastver<R: Threads + Wait + Sync, S: Source, O: Sink, V: Vault, G: Gate + Sync, K: Counter>(
    rt: &R,
    alloc: Global,
    words: &[&str],
    source: &mut S,
    out: &mut O,
    vault: &mut V,
    gate: &G,
    counter: &mut K,
) -> Status
    requires fresh { V.fresh vault.old }
    requires can_raise { K.can_raise counter.old }

    // By the row of what the words ask for, in the table of `Rules`: which statuses can come, where nothing is read, with which
    // of them nothing is written, the vault is neither named nor written and the counter neither asked nor raised, and whether all is
    // read before anything is written: then no more is taken than the limit, but where the input is longer.
    ensures asked { CanEndWith (rules_by (map (λ word. word.now) words.now)) result }
    ensures unread { LeavesSource (rules_by (map (λ word. word.now) words.now)) → source.new ≡ source.old }
    ensures unwritten { LeavesSink (rules_by (map (λ word. word.now) words.now)) result → out.new ≡ out.old }
    ensures vault { LeavesVault (rules_by (map (λ word. word.now) words.now)) result → vault.new ≡ vault.old }
    ensures counter { LeavesCounter (rules_by (map (λ word. word.now) words.now)) result → counter.new ≡ counter.old }
    ensures within { ReadsWhole (rules_by (map (λ word. word.now) words.now))
        → result ≢ Status.InputLimit (2 ^ 40) → TookAtMost (2 ^ 40) (S.left source.old) (S.left source.new) }

    // Where they ask for something: what is written, the status, what was taken of the source, what the counter's number is, and the
    // faults. A check, an audit, a follower, an upgrade and a signing answer to the source's bytes, a seal is that of these bytes, and what goes on
    // from one answers to its bundle with what follows; a run serves them as a script, and a load is served as one, under the key of the
    // words.
    ensures answers { (asked : Asked) → asked_of (map (λ word. word.now) words.now) ≡ Some asked
        → AnswersFor asked (2 ^ 40) result
        (record { left = S.left source.old; left_after = S.left source.new; faults = S.faults source.old; faults_after = S.faults source.new })
        (record { held = O.held out.old; held_after = O.held out.new; faults = O.faults out.old; faults_after = O.faults out.new })
        (record { held = V.held vault.old; held_after = V.held vault.new; name = V.name vault.old; name_after = V.name vault.new; faults = V.faults vault.old; faults_after = V.faults vault.new })
        (record { number = K.number counter.old; number_after = K.number counter.new; faults = K.faults counter.old; faults_after = K.faults counter.new }) }

    // The headline, of any bytes and with nothing premised of who made them: the answer lines of a check, of the source's bytes or
    // of those that a run or a load wrote to its vault, are all the operations of the certified epochs, in an order that keeps
    // each verifier's; there is nothing to exhibit and each get answers the last put to its key, or the exhibit is a real
    // collision: two different strings with one digest, or two different multisets with one sum. What an audit exhibits is such
    // a collision.
    ensures headline { (asked : Asked) → asked_of (map (λ word. word.now) words.now) ≡ Some asked
        → IfSome (bundle_for asked (S.left source.old) (V.held vault.new)) (IsSoundFor asked) }
    ensures collides { (asked : Asked) → asked_of (map (λ word. word.now) words.now) ≡ Some asked → result ≡ Status.Exhibit
        → IfSome (S.left source.old) (CollidesFor asked) }

    // An upgrade that ends with `done` wrote a bundle with the report of the one that it read, with receipts and without.
    ensures upgrades { (key : List ℕ) → asked_of (map (λ word. word.now) words.now) ≡ Some (Asked.Upgrade key) → IsDone result
        → IfSome (S.left source.old) (KeepsReport (sha_under key)) }
{
    match read_words(alloc, words) {
        Ok(Asked::Check(checking)) => {
            let d = digests_under(&checking.key);
            check(rt, alloc, &d, INPUT_LIMIT, source, out, checking.receipts)
        }
        Ok(Asked::Seal(sealing)) => {
            let d = digests_under(&sealing.key);
            let path = sealing.path.as_str();
            check_seal(
                rt,
                alloc,
                &d,
                INPUT_LIMIT,
                path,
                source,
                out,
                vault,
                counter,
            )
        }
        Ok(Asked::Audit(key)) => audit_text(alloc, &digests_under(&key), INPUT_LIMIT, source, out),
        Ok(Asked::Run(run)) => {
            let d = digests_under(&run.key);
            run_script(rt, alloc, &d, &run, INPUT_LIMIT, source, out, vault, gate)
        }
        Ok(Asked::Gen(load)) => {
            let d = digests_under(&load.key);
            serve_generated(rt, alloc, &d, &load, out, vault, gate)
        }
        Ok(Asked::Accept(key)) => {
            accept_text(alloc, &digests_under(&key), INPUT_LIMIT, source, out)
        }
        Ok(Asked::Follow(key)) => {
            follow(rt, alloc, &digests_under(&key), INPUT_LIMIT, source, out)
        }
        Ok(Asked::Upgrade(key)) => {
            upgrade(alloc, &digests_under(&key), INPUT_LIMIT, source, out)
        }
        Ok(Asked::Resume(key)) => {
            let d = digests_under(&key);
            resume(rt, alloc, &d, INPUT_LIMIT, source, out, counter)
        }
        Ok(Asked::Sign(signing)) => {
            let d = digests_under(&signing.key);
            let SignNumbers { client, bits } = signing.numbers;
            sign_text(alloc, &d, client, bits, INPUT_LIMIT, source, out)
        }
        Err(WordsFault::Usage) => Status::Usage,
        Err(WordsFault::Memory) => Status::Memory,
    }
}

// The digests under a key.
fn digests_under(key: &Key) -> ShaDigests
    ensures value { result ≡ key_block key.now }
{
    ShaDigests::new(key.as_slice())
}
