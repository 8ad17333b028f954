//! The faults of an instance.

ghost use Rattle.std.specs.Prelude.{◌≡◌, ◌≢◌, ◌<◌, ◌||◌, List, [], ◌∷◌, ◌++◌, length, map, slice_get, None, Some, IfOk, IfErr, OnOk};
ghost use Rattle.std.specs.List.{list_any};
ghost use Rattle.base_tables.specs.Table.{is_among};
ghost use Rattle.blif_read.specs.Kept.{model_names};
ghost use Rattle.blif_read.specs.declared.design.Pair.{Pair};
ghost use Rattle.blif_read.specs.Design.{model_named};
ghost use Rattle.elaborate.specs.declared.error.FlatError.TheVariants as flat_error;
ghost use Rattle.elaborate.specs.Walking.{named_fault, pairs_fault, first_outside, ports_fault, entry_fault, found_fault, main_name};
ghost use Rattle.elaborate.specs.Scopes.{path_of, instance_at, IsScope, IsInside, AreFormals, AreTables, is_long_behind};

use crate::error::FlatError;
use crate::scope::Scope;
use crate::tables::{Formals, Tables};
use blif_read::{BlifModel, MAX_LEVELS, MAX_NAME_BYTES, NameTable, NoMemory, Pair, Seq, Word};
use std::alloc::Global;

/// The most steps from the main model, which stands on the first level.
const STEPS: usize = MAX_LEVELS - 1;

fn word(alloc: Global, name: &[u8]) -> Result<Word, NoMemory>
    ensures { IfOk result (λ made. made ≡ name.now) }
{
    Ok(Seq::from_vec(name.to_vec(alloc)?))
}

/// Whether the name behind so many bytes has more than 4,096 bytes.
pub(crate) fn is_long(prefix: usize, name: &[u8]) -> bool
    ensures { result ≡ is_long_behind prefix name.now }
{
    prefix > MAX_NAME_BYTES || name.len() > MAX_NAME_BYTES - prefix
}

/// Whether one of the names behind so many bytes has more than 4,096 bytes.
pub(crate) fn are_long(prefix: usize, names: &[Word]) -> bool
    ensures { result ≡ list_any (is_long_behind prefix) names.now }
{
    for name in names {
        if is_long(prefix, name.as_slice()) {
            return true;
        }
    }
    false
}

/// Whether one of the actuals behind so many bytes has more than 4,096 bytes.
fn actuals_are_long(prefix: usize, pairs: &[Pair]) -> bool
    ensures { result ≡ list_any (λ p. is_long_behind prefix p.actual) pairs.now }
{
    for pair in pairs {
        if is_long(prefix, pair.actual.as_slice()) {
            return true;
        }
    }
    false
}

/// The number of the model that is entered.
fn model_to_enter(
    alloc: Global,
    models: &[BlifModel],
    tables: &Tables,
    outer: &Scope,
    name: &[u8],
) -> Result<u32, FlatError>
    requires tables { AreTables models.now tables.now }
    requires scope { IsScope models.now outer.now }
    ensures named { IfOk result (λ k. slice_get (model_names models.now) k ≡ Some name.now) }
    ensures ok { IfOk result (λ k. (model_named models.now name.now ≡ slice_get models.now k)
        × (entry_fault (main_name models.now) (path_of (model_names models.now) outer.now) (model_named models.now name.now) name.now ≡ None)) }
    ensures room { OnOk result (length outer.now.steps.items < 63) }
    ensures err { IfErr result (λ e. e ≢ flat_error.NoMemory → entry_fault (main_name models.now) (path_of (model_names models.now) outer.now) (model_named models.now name.now) name.now ≡ Some e) }
{
    let Some(model) = tables.names.find(name) else {
        return Err(FlatError::UnknownModel(word(alloc, name)?));
    };
    tables.names.keeps();
    if outer.is_on_path(model) {
        return Err(FlatError::Recursive(word(alloc, name)?));
    }
    if outer.steps.as_slice().len() >= STEPS {
        return Err(FlatError::TooDeep(word(alloc, name)?));
    }
    Ok(model)
}

/// The formals of the pairs, or the first fault of the pairs in turn.
fn check_pairs(alloc: Global, formals: &Formals, pairs: &[Pair]) -> Result<NameTable, FlatError>
    ensures ok { IfOk result (λ seen. (seen ≡ map (λ p. p.formal) pairs.now) × (pairs_fault (λ n. is_among formals.now.inputs n || is_among formals.now.outputs n) [] pairs.now ≡ None)) }
    ensures err { IfErr result (λ e. e ≢ flat_error.NoMemory → pairs_fault (λ n. is_among formals.now.inputs n || is_among formals.now.outputs n) [] pairs.now ≡ Some e) }
{
    let mut seen = NameTable::new(alloc);
    for pair in pairs {
        see_pair(alloc, formals, &mut seen, pair)?;
    }
    Ok(seen)
}

/// Puts the pair's formal behind those that were seen, or tells what is wrong with it.
fn see_pair(
    alloc: Global,
    formals: &Formals,
    seen: &mut NameTable,
    pair: &Pair,
) -> Result<(), FlatError>
    ensures seen { OnOk result (seen.new ≡ seen.old ++ pair.now.formal ∷ []) }
    ensures ok { OnOk result ((pairs : List Pair) → pairs_fault (λ n. is_among formals.now.inputs n || is_among formals.now.outputs n) seen.old (pair.now ∷ pairs) ≡ pairs_fault (λ n. is_among formals.now.inputs n || is_among formals.now.outputs n) seen.new pairs) }
    ensures err { IfErr result (λ e. e ≢ flat_error.NoMemory → (pairs : List Pair) → pairs_fault (λ n. is_among formals.now.inputs n || is_among formals.now.outputs n) seen.old (pair.now ∷ pairs) ≡ Some e) }
{
    let formal = pair.formal.as_slice();
    if !formals.has(formal) {
        return Err(FlatError::UnknownFormal(word(alloc, formal)?));
    }
    if !seen.add(alloc, formal)? {
        return Err(FlatError::FormalTwice(word(alloc, formal)?));
    }
    Ok(())
}

/// The first of the names without a pair is a fault.
fn check_open(alloc: Global, seen: &NameTable, names: &[Word]) -> Result<(), FlatError>
    ensures ok { OnOk result (first_outside seen.now names.now ≡ None) }
    ensures err { IfErr result (λ e. e ≢ flat_error.NoMemory → named_fault flat_error.OpenInput (first_outside seen.now names.now) ≡ Some e) }
{
    for name in names {
        if !seen.has(name.as_slice()) {
            return Err(FlatError::OpenInput(word(alloc, name.as_slice())?));
        }
    }
    Ok(())
}

/// The first fault of an instance's pairs.
fn check_ports(
    alloc: Global,
    model: &BlifModel,
    formals: &Formals,
    pairs: &[Pair],
) -> Result<(), FlatError>
    requires { AreFormals model.now formals.now }
    ensures ok { OnOk result (ports_fault model.now pairs.now ≡ None) }
    ensures err { IfErr result (λ e. e ≢ flat_error.NoMemory → ports_fault model.now pairs.now ≡ Some e) }
{
    let seen = check_pairs(alloc, formals, pairs)?;
    check_open(alloc, &seen, model.inputs.as_slice())?;
    check_open(alloc, &seen, model.clocks.as_slice())
}

/// The scope of an instance, or its first fault.
pub(crate) fn entered(
    alloc: Global,
    models: &[BlifModel],
    tables: &Tables,
    outer: &Scope,
    instance: usize,
    name: &[u8],
    pairs: &[Pair],
) -> Result<Scope, FlatError>
    requires tables { AreTables models.now tables.now }
    requires scope { IsScope models.now outer.now }
    ensures inside { IfOk result (IsInside models.now outer.now instance name.now) }
    ensures ok { OnOk result (found_fault (main_name models.now) (instance_at models.now outer.now instance name.now pairs.now) ≡ None) }
    ensures err { IfErr result (λ e. e ≢ flat_error.NoMemory → found_fault (main_name models.now) (instance_at models.now outer.now instance name.now pairs.now) ≡ Some e) }
{
    let model = model_to_enter(alloc, models, tables, outer, name)?;
    let formals = &tables.formals.as_slice()[model as usize];
    check_ports(alloc, &models[model as usize], formals, pairs)?;
    let inner = outer.inside(alloc, model, name, instance)?;
    if actuals_are_long(outer.prefix.len(), pairs) || formals.exceed(inner.prefix.len()) {
        return Err(FlatError::LongName);
    }
    Ok(inner)
}
