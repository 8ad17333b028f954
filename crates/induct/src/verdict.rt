//! The pairs and the verdict.

ghost use Rattle.std.specs.Prelude.{◌≡◌, [], ◌∷◌, ◌+◌, ◌^◌, ◌<◌, List, ◌++◌, map, All, Some, IfOk, IfSome, OnOk};
ghost use Rattle.std.specs.Option.{option_or};
ghost use Rattle.induct.specs.declared.block_outputs.outputs.OutputPair.{OutputPair};
ghost use Rattle.induct.specs.Inductions.{pair_told, variable_told, first_limit, first_shown, verdict_of, AreSmall, IsTold};

use crate::block_outputs::{OutputAnswer, OutputPair, OutputPairs, Shown};
use crate::induction::{Blocks, InductPair, InductPairs, InductVerdict, Induction};
use pair_decide::Proof;
use sec_base::{Ids, NoMemory, PairAnswer, Word};
use std::alloc::Global;

/// What has been told of the pairs so far: the first one at the limit, and the first one that isn't shown.
#[derive(Drop)]
struct Told {
    pairs: InductPairs,
    limit: Option<Word>,
    shown: Option<(Word, Shown)>,
}

impl Told {
    fn put(&mut self, pair: OutputPair) -> Result<(), NoMemory>
        ensures { OnOk result ((outputs : List OutputPair) → IsTold outputs self.old → IsTold (outputs ++ pair ∷ []) self.new) }
    {
        let OutputPair { name, answer } = pair;
        match answer {
            OutputAnswer::Equal => self.push(name, PairAnswer::Equal, None),
            OutputAnswer::Limit(proof) => {
                self.put_limit(&name)?;
                self.push(name, PairAnswer::Limit, Some(proof))
            }
            OutputAnswer::NotShown(shown) => {
                self.put_shown(&name, shown)?;
                self.push(name, PairAnswer::NotShown, None)
            }
        }
    }

    /// Keeps the name as the first one at the limit, where there was none.
    fn put_limit(&mut self, name: &Word) -> Result<(), NoMemory>
        ensures pairs { OnOk result (self.new.pairs ≡ self.old.pairs) }
        ensures limit { OnOk result (self.new.limit ≡ option_or self.old.limit (Some name.now)) }
        ensures shown { OnOk result (self.new.shown ≡ self.old.shown) }
    {
        if self.limit.is_some() {
            return Ok(());
        }
        self.limit = Some(name.copy()?);
        Ok(())
    }

    /// Keeps the pair as the first one that isn't shown, where there was none.
    fn put_shown(&mut self, name: &Word, shown: Shown) -> Result<(), NoMemory>
        ensures pairs { OnOk result (self.new.pairs ≡ self.old.pairs) }
        ensures limit { OnOk result (self.new.limit ≡ self.old.limit) }
        ensures shown { OnOk result (self.new.shown ≡ option_or self.old.shown (Some (name.now, shown))) }
    {
        if self.shown.is_some() {
            return Ok(());
        }
        self.shown = Some((name.copy()?, shown));
        Ok(())
    }

    fn push(&mut self, name: Word, answer: PairAnswer, proof: Option<Proof>) -> Result<(), NoMemory>
        ensures pairs { OnOk result (self.new.pairs ≡ self.old.pairs ++ record { name = name; answer = answer; proof = proof } ∷ []) }
        ensures limit { OnOk result (self.new.limit ≡ self.old.limit) }
        ensures shown { OnOk result (self.new.shown ≡ self.old.shown) }
    {
        self.pairs.push(InductPair {
            name,
            answer,
            proof,
        })
    }
}

/// The pairs with their answers, and the first of limit, not shown and equal that one has. The blocks have the variables from `first`
/// on, and are told from `count` on.
pub(crate) fn judge(
    alloc: Global,
    first: u32,
    count: u32,
    outputs: OutputPairs,
    blocks: Blocks,
) -> Result<Induction, NoMemory>
    requires { All (λ pair. AreSmall count pair.answer) outputs }
    ensures blocks { IfOk result (λ made. made.blocks ≡ blocks) }
    ensures pairs { IfOk result (λ made. made.pairs ≡ map pair_told outputs) }
    ensures verdict { IfOk result (λ made. made.verdict ≡ verdict_of first count (first_limit outputs) (first_shown outputs)) }
{
    let Told {
        pairs,
        limit,
        shown,
    } = told_of(alloc, outputs)?;
    let verdict = verdict_of(alloc, first, count, limit, shown)?;
    Ok(Induction {
        blocks,
        pairs,
        verdict,
    })
}

/// The pairs, told one after the other.
fn told_of(alloc: Global, outputs: OutputPairs) -> Result<Told, NoMemory>
    ensures { IfOk result (IsTold outputs) }
{
    let mut told = Told {
        pairs: InductPairs::new(alloc),
        limit: None,
        shown: None,
    };
    for pair in outputs.into_vec() {
        told.put(pair)?;
    }
    Ok(told)
}

fn verdict_of(
    alloc: Global,
    first: u32,
    count: u32,
    limit: Option<Word>,
    shown: Option<(Word, Shown)>,
) -> Result<InductVerdict, NoMemory>
    requires { IfSome shown (λ x. All (λ v. count + v < 2 ^ 32) x.1.vars) }
    ensures { IfOk result (λ made. made ≡ verdict_of first count limit shown) }
{
    if let Some(pair) = limit {
        return Ok(InductVerdict::Limit { pair });
    }
    let Some((pair, shown)) = shown else {
        return Ok(InductVerdict::Equal);
    };
    let Shown {
        left,
        right,
        vars,
        bits,
    } = shown;
    Ok(InductVerdict::NotShown {
        pair,
        left,
        right,
        vars: told_variables(alloc, vars.as_slice(), first, count)?,
        bits,
    })
}

/// The variables as they are told: the blocks' from `count` on.
fn told_variables(alloc: Global, vars: &[u32], first: u32, count: u32) -> Result<Ids, NoMemory>
    requires { All (λ v. count + v < 2 ^ 32) vars.now }
    ensures { IfOk result (λ told. told ≡ map (variable_told first count) vars.now) }
{
    let mut told = Ids::new(alloc);
    for v in vars {
        told.push(told_variable(*v, first, count))?;
    }
    Ok(told)
}

fn told_variable(v: u32, first: u32, count: u32) -> u32
    requires { count + v < 2 ^ 32 }
    ensures { result ≡ variable_told first count v }
{
    if v < first { v } else { count + (v - first) }
}
