//! The walk over the hierarchy.

ghost use Rattle.std.specs.Prelude.{◌≡◌, ◌≢◌, ◌^◌, ◌<◌, ◌≤◌, ◌∷◌, [], true, false, All, Ok, Err, Some, length, slice_get, IfOk, IfErr, OnOk};
ghost use Rattle.std.specs.List.{list_all, sum_by};
ghost use Rattle.blif_read.specs.Kept.{model_names};
ghost use Rattle.blif_read.specs.Fault.{repeats};
ghost use Rattle.elaborate.specs.declared.error.FlatError.TheVariants as flat_error;
ghost use Rattle.elaborate.specs.Within.{reads_as_kind, written_places};
ghost use Rattle.elaborate.specs.Flat.{statement_in};
ghost use Rattle.elaborate.specs.Walked.{IsWalked};
ghost use Rattle.elaborate.specs.Walking.{main_name, design_walk_fault};
ghost use Rattle.elaborate.specs.Steps.{visits, heads};
ghost use Rattle.elaborate.specs.Scopes.{AreTables, IsScope, IsInside, GoesInside, path_of, instance_at, pairs_at, below_scope};
ghost use Rattle.elaborate.specs.State.{HasWalked, IsKept, IsWithPorts, state};

use crate::checks::entered;
use crate::error::FlatError;
use crate::flat::Flat;
use crate::numbers::numbers;
use crate::scope::Scope;
use crate::tables::{Tables, tables_of};
use crate::walked::Walked;
use blif_read::{
    BlifModel, Design, MAX_PLACES, MAX_STATEMENTS, NameTable, NoMemory, Pair, Seq, Statement, Word,
};
use std::alloc::Global;
use std::mem;

/// Takes an instance with its pairs, and gives the scope where the walk goes on.
fn take_instance(
    walked: &mut Walked,
    alloc: Global,
    models: &[BlifModel],
    tables: &Tables,
    outer: &Scope,
    instance: usize,
    name: &[u8],
    pairs: &[Pair],
) -> Result<Scope, FlatError>
    requires kept { IsKept walked.old }
    requires tables { AreTables models.now tables.now }
    requires scope { IsScope models.now outer.now }
    ensures kept { OnOk result (IsKept walked.new) }
    ensures inside { IfOk result (IsInside models.now outer.now instance name.now) }
    ensures ok { OnOk result (visits (main_name models.now) (state models.now walked.old) (instance_at models.now outer.now instance name.now pairs.now ∷ pairs_at models.now outer.now instance name.now pairs.now) ≡ Ok (state models.now walked.new)) }
    ensures err { IfErr result (λ e. e ≢ flat_error.NoMemory → visits (main_name models.now) (state models.now walked.old) (instance_at models.now outer.now instance name.now pairs.now ∷ pairs_at models.now outer.now instance name.now pairs.now) ≡ Err e) }
{
    walked.count(pairs.len() + 1, pairs.len() * 2)?;
    let inner = entered(alloc, models, tables, outer, instance, name, pairs)?;
    let formals = &tables.formals.as_slice()[inner.model as usize];
    walked.add_pairs(
        alloc,
        outer.prefix.as_slice(),
        inner.prefix.as_slice(),
        &formals.inputs,
        pairs,
    )?;
    Ok(inner)
}

/// Takes a statement of the scope's model. An instance gives the scope where the walk goes on.
fn take(
    walked: &mut Walked,
    alloc: Global,
    models: &[BlifModel],
    tables: &Tables,
    scope: &Scope,
    instance: usize,
    at: u32,
    statement: &Statement,
) -> Result<Option<Scope>, FlatError>
    requires kept { IsKept walked.old }
    requires tables { AreTables models.now tables.now }
    requires scope { IsScope models.now scope.now }
    requires here { statement_in (slice_get models.now scope.now.model) at ≡ Some statement.now }
    ensures kept { OnOk result (IsKept walked.new) }
    ensures inside { IfOk result (GoesInside models.now scope.now instance statement.now) }
    ensures ok { OnOk result (visits (main_name models.now) (state models.now walked.old) (heads models.now (path_of (model_names models.now) scope.now) instance statement.now) ≡ Ok (state models.now walked.new)) }
    ensures err { IfErr result (λ e. e ≢ flat_error.NoMemory → visits (main_name models.now) (state models.now walked.old) (heads models.now (path_of (model_names models.now) scope.now) instance statement.now) ≡ Err e) }
{
    let prefix = scope.prefix.as_slice();
    match statement {
        Statement::Names { fanins, out, .. } => {
            walked.take_gate(
                alloc,
                prefix,
                fanins.as_slice(),
                out.as_slice(),
                scope.model,
                at,
            )?;
            Ok(None)
        }
        Statement::Latch {
            input,
            output,
            edge,
            control,
            init,
            ..
        } => {
            walked.take_latch(
                alloc,
                prefix,
                input.as_slice(),
                output.as_slice(),
                *edge,
                control,
                *init,
            )?;
            Ok(None)
        }
        Statement::Subckt { model, pairs, .. } => Ok(Some(take_instance(
            walked,
            alloc,
            models,
            tables,
            scope,
            instance,
            model.as_slice(),
            pairs.as_slice(),
        )?)),
    }
}

/// Takes the statements of a scope's model, and those of the models inside.
fn walk_scope(
    walked: &mut Walked,
    alloc: Global,
    models: &[BlifModel],
    tables: &Tables,
    scope: &Scope,
) -> Result<(), FlatError>
    requires kept { IsKept walked.old }
    requires tables { AreTables models.now tables.now }
    requires scope { IsScope models.now scope.now }
    requires few { All (λ m. length m.statements < 2 ^ 32) models.now }
    ensures kept { OnOk result (IsKept walked.new) }
    ensures ok { OnOk result (visits (main_name models.now) (state models.now walked.old) (below_scope models.now scope.now) ≡ Ok (state models.now walked.new)) }
    ensures err { IfErr result (λ e. e ≢ flat_error.NoMemory → visits (main_name models.now) (state models.now walked.old) (below_scope models.now scope.now) ≡ Err e) }
{
    let mut instance: usize = 0;
    let mut at: u32 = 0;
    let statements = models[scope.model as usize].statements.as_slice();
    for statement in statements {
        let inside = take(
            walked, alloc, models, tables, scope, instance, at, statement,
        )?;
        if let Some(inner) = inside {
            walk_scope(walked, alloc, models, tables, &inner)?;
            instance += 1;
        }
        at += 1;
    }
    Ok(())
}

/// The flat statements with the main model's ports. They are moved out.
fn with_ports(alloc: Global, walked: &mut Walked, main: &BlifModel) -> Result<Flat, NoMemory>
    requires kept { IsKept walked.old }
    requires shaped { list_all reads_as_kind walked.old.statements ≡ true }
    requires few { length walked.old.statements ≤ MAX_STATEMENTS }
    requires few_places { sum_by written_places walked.old.statements ≤ MAX_PLACES }
    ensures { IfOk result (IsWithPorts main.now walked.old) }
{
    let inputs = numbers(alloc, &mut walked.names, b"", main.inputs.as_slice())?;
    let clocks = numbers(alloc, &mut walked.names, b"", main.clocks.as_slice())?;
    let outputs = numbers(alloc, &mut walked.names, b"", main.outputs.as_slice())?;
    walked.names.keeps();
    Ok(Flat {
        names: mem::replace(&mut walked.names, NameTable::new(alloc)),
        inputs,
        clocks,
        outputs,
        statements: mem::replace(&mut walked.statements, Seq::new(alloc)),
    })
}

/// What the walk over a design's models finds.
fn walked_of(alloc: Global, models: &[BlifModel]) -> Result<Walked, FlatError>
    requires apart { repeats [] (model_names models.now) ≡ false }
    requires some { 0 < length models.now }
    requires few { All (λ m. length m.statements < 2 ^ 32) models.now }
    ensures ok { IfOk result (HasWalked models.now) }
    ensures err { IfErr result (λ e. e ≢ flat_error.NoMemory → design_walk_fault models.now ≡ Some e) }
{
    let tables = tables_of(alloc, models)?;
    let mut walked = Walked::new(alloc);
    walk_scope(&mut walked, alloc, models, &tables, &Scope::main(alloc))?;
    Ok(walked)
}

/// The flat statements of a design. A fault is the first that the walk meets; no other is looked for.
pub fn walk(alloc: Global, design: &Design) -> Result<Flat, FlatError>
    ensures ok { IfOk result (IsWalked design.now.models) }
    ensures err { IfErr result (λ e. e ≢ flat_error.NoMemory → design_walk_fault design.now.models ≡ Some e) }
{
    let models = design.models.as_slice();
    let mut walked = walked_of(alloc, models)?;
    Ok(with_ports(alloc, &mut walked, &models[0])?)
}
