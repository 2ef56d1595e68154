//! Tests of the top layer, over its public calls: `fastver` and `audit_text` of `fastver_top`, `check` of `check_core`, `upgrade` of
//! `bundle_upgrade` and `audit` of `collision_exhibit`.
//!
//! Bundles are rows, which `bundle_rows` reads, in tables of cases with their reports. What each must come to was
//! worked out by hand, or found by the slow program. `lying_log_tests.rt` has one log for each way in which a host
//! may lie to a verifier, in frames that are cut at each byte, and pairs of logs whose frames come in any order, by
//! `framed.rt`; `bundle_tests.rt` and `tree_tests.rt` have other bundles, and `version_tests.rt` those whose
//! commands name slots; these are checked, and what isn't done is audited too. Under digests that collide at will `audit_tests.rt` has audits, `exhibit_tests.rt` what is
//! exhibited of a log, and `collision_tests.rt` checks that certify what is not serial. In `object_tests.rt` bundles
//! are cut, and no more is read than the limit; in `fault_tests.rt` reads and writes fail one by one. `upgrade_tests.rt` has bundles of
//! all versions beside what is written of each in version 3. `seal_tests.rt` has bundles that are sealed where they are cut, and gone on
//! from, by `sealing.rt`; `refused_seal_tests.rt` has seals that are refused, and `seal_fault_tests.rt` objects that fail. `word_tests.rt` has
//! the program's words. Begin with `running.rt`, which runs a bundle.
#![tactic(auto)]

#[cfg(test)]
mod audit_tests;
#[cfg(test)]
mod bundle_tests;
#[cfg(test)]
mod collision_tests;
#[cfg(test)]
mod exhibit_tests;
#[cfg(test)]
mod fault_tests;
#[cfg(test)]
mod framed;
#[cfg(test)]
mod lying_log_tests;
#[cfg(test)]
mod object_tests;
#[cfg(test)]
mod refused_seal_tests;
#[cfg(test)]
mod running;
#[cfg(test)]
mod seal_fault_tests;
#[cfg(test)]
mod seal_tests;
#[cfg(test)]
mod sealing;
#[cfg(test)]
mod tree_tests;
#[cfg(test)]
mod upgrade_tests;
#[cfg(test)]
mod version_tests;
#[cfg(test)]
mod word_tests;
