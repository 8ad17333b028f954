//! The report of a comparison with the cares of its pairs, and what it says.

ghost use Rattle.std.specs.Prelude.{◌≡◌, ◌≢◌, [], ◌∷◌, ◌++◌, length, option_map, option_to_list, true, IfOk, OnOk};
ghost use Rattle.std.specs.List.{filter_map, flat_map};
ghost use Rattle.circuit_theory.specs.declared.Mode.TheVariants.{Event};
ghost use Rattle.obligations.specs.outcome.Report.{knows_pairs, pair_text, verdict_text};
ghost use Rattle.job_base.specs.declared.finding.Finding.TheVariants as finding;
ghost use Rattle.job_settles.specs.Report.{care_line, care_proof, equal_text, front_text, idle_line, idle_text, idle_with, named_line, settles_judgement, settles_proofs, settles_text, settles_verdict};

use event_check::event_answers::Settled;
use event_settles::{Care, IdleLatch, PairCare, PairCares};
use job_base::{Finding, Judgement, Proofs, proofs_of};
use obligations::outcome::{Outcome, PairName, Settings, Verdict, report};
use sec_base::{NoMemory, Seq, Side, Text, put, put_number};
use std::alloc::Global;
use std::mem;

/// The last line of a report that says equal.
const EQUAL: &[u8] = b"verdict equal\n";

/// What is found of a comparison with the cares of its pairs: its report, what that says, and the proofs of the queries that met the limit.
pub(crate) fn found_of(
    alloc: Global,
    settled: Settled,
    settings: &Settings,
) -> Result<Finding, NoMemory>
    requires { settled.cares ≢ [] → (settings.now.mode ≡ Event) × (knows_pairs settled.outcome.verdict ≡ true) }
    ensures { IfOk result (λ f. f ≡ finding.Judged (settles_judgement settled.outcome.verdict settled.cares) (settles_proofs settled.outcome settled.cares) (settles_text settings.now settled.outcome settled.cares)) }
{
    let Settled { outcome, cares } = settled;
    let mut outcome = outcome;
    let text = text_of(alloc, &mut outcome, cares.as_slice(), settings)?;
    let judgement = judgement_of(&outcome.verdict, cares.as_slice());
    let proofs = all_proofs(alloc, outcome, cares)?;
    Ok(Finding::Judged(judgement, proofs, text))
}

/// The report. Where cares were asked about, a line of each pair that has none, or of which it isn't known, stands before the verdict, and behind these
/// the line of a class whose loads can't happen.
fn text_of(
    alloc: Global,
    outcome: &mut Outcome,
    cares: &[PairCare],
    settings: &Settings,
) -> Result<Text, NoMemory>
    requires { cares.now ≢ [] → (settings.now.mode ≡ Event) × (knows_pairs outcome.old.verdict ≡ true) }
    ensures same { outcome.new ≡ outcome.old }
    ensures text { IfOk result (λ text. text ≡ settles_text settings.now outcome.old cares.now) }
{
    let whole = report(alloc, outcome, settings)?;
    if cares.is_empty() {
        return Ok(whole);
    }
    let length = front_length(alloc, outcome, settings)?;
    let mut text = Vec::new(alloc);
    put(&mut text, &whole.as_slice()[..length])?;
    put_cares(&mut text, cares)?;
    put_idle(&mut text, cares)?;
    let verdict = &whole.as_slice()[length..];
    put_verdict(
        alloc,
        &mut text,
        &outcome.verdict,
        cares,
        settings.conflicts,
        verdict,
    )?;
    Ok(Seq::from_vec(text))
}

/// How many bytes stand before the verdict. In the event mode what stands there is the same whatever the verdict is, once pairs are asked about.
fn front_length(
    alloc: Global,
    outcome: &mut Outcome,
    settings: &Settings,
) -> Result<usize, NoMemory>
    requires event { settings.now.mode ≡ Event }
    requires known { knows_pairs outcome.old.verdict ≡ true }
    ensures same { outcome.new ≡ outcome.old }
    ensures length { IfOk result (λ n. n ≡ length (front_text settings.now outcome.old)) }
{
    let verdict = mem::replace(&mut outcome.verdict, Verdict::Equal);
    let made = report(alloc, outcome, settings);
    outcome.verdict = verdict;
    let equal = made?;
    Ok(equal.len() - EQUAL.len())
}

/// Puts the line of each pair that has no care, or of which it isn't known.
fn put_cares(text: &mut Vec<u8>, cares: &[PairCare]) -> Result<(), NoMemory>
    ensures { OnOk result (text.new.items ≡ text.old.items ++ flat_map care_line cares.now) }
{
    for care in cares {
        put_care(text, care)?;
    }
    Ok(())
}

fn put_care(text: &mut Vec<u8>, care: &PairCare) -> Result<(), NoMemory>
    ensures { OnOk result (text.new.items ≡ text.old.items ++ care_line care.now) }
{
    match &care.care {
        Care::Met => Ok(()),
        Care::Never(_) => put_named(text, b"never ", &care.name),
        Care::Limit(_) => put_named(text, b"undecided ", &care.name),
    }
}

/// Puts the line of the latch that stands with the first pair that has one.
fn put_idle(text: &mut Vec<u8>, cares: &[PairCare]) -> Result<(), NoMemory>
    ensures { OnOk result (text.new.items ≡ text.old.items ++ idle_text cares.now) }
{
    match first_idle(cares) {
        Some(latch) => put_load(text, latch),
        None => Ok(()),
    }
}

/// The latch that stands with the first pair that has one.
fn first_idle(cares: &[PairCare]) -> Option<&IdleLatch>
    ensures { option_map (λ latch. latch.now) result ≡ Rattle.job_settles.specs.Report.first_idle cares.now }
{
    for care in cares {
        if let Some(latch) = idle_of(&care.care) {
            return Some(latch);
        }
    }
    None
}

fn idle_of(care: &Care) -> Option<&IdleLatch>
    ensures { option_map (λ latch. latch.now) result ≡ idle_with care.now }
{
    match care {
        Care::Never(Some(latch)) => Some(latch),
        _ => None,
    }
}

fn put_load(text: &mut Vec<u8>, latch: &IdleLatch) -> Result<(), NoMemory>
    ensures { OnOk result (text.new.items ≡ text.old.items ++ idle_line latch.now) }
{
    put(text, b"load ")?;
    match latch.side {
        Side::A => put(text, b"A:")?,
        Side::B => put(text, b"B:")?,
    }
    put(text, latch.name.as_slice())?;
    put(text, b" never\n")
}

/// Puts a line of the pair behind what stands before it.
fn put_named(text: &mut Vec<u8>, front: &[u8], name: &PairName) -> Result<(), NoMemory>
    ensures { OnOk result (text.new.items ≡ text.old.items ++ named_line front.now name.now) }
{
    put(text, front)?;
    put_pair(text, name)?;
    put(text, b"\n")
}

fn put_pair(text: &mut Vec<u8>, name: &PairName) -> Result<(), NoMemory>
    ensures { OnOk result (text.new.items ≡ text.old.items ++ pair_text name.now) }
{
    match name {
        PairName::Output(word) => put(text, word.as_slice()),
        PairName::Next(word) => {
            put(text, b"next ")?;
            put(text, word.as_slice())
        }
    }
}

/// Puts the verdict, whose text without cares is given.
fn put_verdict(
    alloc: Global,
    text: &mut Vec<u8>,
    verdict: &Verdict,
    cares: &[PairCare],
    conflicts: u32,
    without: &[u8],
) -> Result<(), NoMemory>
    requires { without.now ≡ verdict_text conflicts verdict.now }
    ensures { OnOk result (text.new.items ≡ text.old.items ++ settles_verdict conflicts verdict.now cares.now) }
{
    match verdict {
        Verdict::Equal => put_equal(alloc, text, cares, conflicts),
        _ => put(text, without),
    }
}

/// Puts the verdict where all pairs are equal: the first pair that has no care, or else the first of which it isn't known.
fn put_equal(
    alloc: Global,
    text: &mut Vec<u8>,
    cares: &[PairCare],
    conflicts: u32,
) -> Result<(), NoMemory>
    ensures { OnOk result (text.new.items ≡ text.old.items ++ equal_text conflicts cares.now) }
{
    if let Some(name) = first_never(cares) {
        return put_named(text, b"verdict not-shown never ", name);
    }
    if let Some(name) = first_limit(cares) {
        put(text, b"verdict limit settles ")?;
        put_pair(text, name)?;
        put(text, b" conflicts ")?;
        put_number(alloc, text, u64::from(conflicts))?;
        return put(text, b"\n");
    }
    put(text, EQUAL)
}

/// The name of the first pair that has no care.
fn first_never(cares: &[PairCare]) -> Option<&PairName>
    ensures { option_map (λ name. name.now) result ≡ Rattle.job_settles.specs.Report.first_never cares.now }
{
    for care in cares {
        if let Care::Never(_) = &care.care {
            return Some(&care.name);
        }
    }
    None
}

/// The name of the first pair of which it isn't known whether it has care.
fn first_limit(cares: &[PairCare]) -> Option<&PairName>
    ensures { option_map (λ name. name.now) result ≡ Rattle.job_settles.specs.Report.first_limit cares.now }
{
    for care in cares {
        if let Care::Limit(_) = &care.care {
            return Some(&care.name);
        }
    }
    None
}

/// What the report says of the circuits.
fn judgement_of(verdict: &Verdict, cares: &[PairCare]) -> Judgement
    ensures { result ≡ settles_judgement verdict.now cares.now }
{
    match verdict {
        Verdict::Equal => equal_judgement(cares),
        Verdict::Different(_) => Judgement::Different,
        Verdict::DifferentFrom(_) => Judgement::Different,
        Verdict::NotShown(_) => Judgement::NotShown,
        Verdict::Limit(_) => Judgement::Limit,
    }
}

/// What it says where all pairs are equal.
fn equal_judgement(cares: &[PairCare]) -> Judgement
    ensures { result ≡ Rattle.job_settles.specs.Report.equal_judgement cares.now }
{
    if first_never(cares).is_some() {
        return Judgement::NotShown;
    }
    if first_limit(cares).is_some() {
        return Judgement::Limit;
    }
    Judgement::Equal
}

/// The proofs of the queries that met the limit: those of the outcome, and then those of the cares.
fn all_proofs(alloc: Global, outcome: Outcome, cares: PairCares) -> Result<Proofs, NoMemory>
    ensures { IfOk result (λ proofs. proofs ≡ settles_proofs outcome cares) }
{
    let mut proofs = proofs_of(alloc, outcome)?;
    for care in cares.into_vec() {
        keep_proof(&mut proofs, care)?;
    }
    Ok(proofs)
}

/// Puts the proof of the care's limit behind the others, where it met one.
fn keep_proof(proofs: &mut Proofs, care: PairCare) -> Result<(), NoMemory>
    ensures { OnOk result (proofs.new ≡ proofs.old ++ option_to_list (care_proof care)) }
{
    let PairCare { name: _, care } = care;
    match care {
        Care::Limit(proof) => proofs.push(proof),
        _ => Ok(()),
    }
}
