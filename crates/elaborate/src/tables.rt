//! Tables of the models of a design, made once: their names, and the ports of each.

ghost use Rattle.std.specs.Prelude.{◌≡◌, ◌||◌, ℕ, false, List, [], IfOk, OnOk};
ghost use Rattle.std.specs.List.{list_any};
ghost use Rattle.base_tables.specs.Table.{is_among};
ghost use Rattle.blif_read.specs.Kept.{model_names};
ghost use Rattle.blif_read.specs.Fault.{repeats};
ghost use Rattle.elaborate.specs.Scopes.{AreFormals, AreTables, is_long_behind, exceeds};

use blif_read::{BlifModel, NameTable, NoMemory, Word};
use std::alloc::Global;

/// The ports of a model.
pub(crate) struct Formals {
    /// Inputs and clocks.
    pub(crate) inputs: NameTable,
    pub(crate) outputs: NameTable,
    /// One more than the bytes of the longest port; 0 without ports.
    pub(crate) room: usize,
}

/// It is let go by one call: an owner isn't taken apart field by field at each way out.
impl Drop for Formals {
    fn drop(self) {
        let Formals {
            inputs: _,
            outputs: _,
            room: _,
        } = self;
    }
}

/// The names of the models by number, and for each model its ports.
pub(crate) struct Tables {
    pub(crate) names: NameTable,
    pub(crate) formals: Vec<Formals>,
}

/// It is let go by one call: an owner isn't taken apart field by field at each way out.
impl Drop for Tables {
    fn drop(self) {
        let Tables {
            names: _,
            formals: _,
        } = self;
    }
}

impl Formals {
    /// Whether the name is a port's.
    pub(crate) fn has(&self, name: &[u8]) -> bool
        ensures { result ≡ (is_among self.now.inputs name.now || is_among self.now.outputs name.now) }
    {
        self.inputs.has(name) || self.outputs.has(name)
    }

    /// Whether a port's name behind so many bytes has more than 4,096 bytes.
    pub(crate) fn exceed(&self, prefix: usize) -> bool
        ensures { result ≡ exceeds prefix self.now.room }
    {
        self.room > 0 && (prefix > 4097 || self.room > 4097 - prefix)
    }
}

/// Adds the names that are not in the table yet.
fn add_all(alloc: Global, table: &mut NameTable, names: &[Word]) -> Result<(), NoMemory>
    ensures { OnOk result ((name : List ℕ) → is_among table.new name ≡ (is_among table.old name || is_among names.now name)) }
{
    for name in names {
        table.add(alloc, name.as_slice())?;
    }
    Ok(())
}

/// The greater of the room and what the names take.
fn room_for(names: &[Word], least: usize) -> usize
    ensures { (prefix : ℕ) → exceeds prefix result ≡ (exceeds prefix least || list_any (is_long_behind prefix) names.now) }
{
    let mut room = least;
    for name in names {
        let bytes = name.as_slice().len();
        if room <= bytes {
            room = bytes + 1;
        }
    }
    room
}

fn formals_of(alloc: Global, model: &BlifModel) -> Result<Formals, NoMemory>
    ensures { IfOk result (AreFormals model.now) }
{
    let mut inputs = NameTable::new(alloc);
    add_all(alloc, &mut inputs, model.inputs.as_slice())?;
    add_all(alloc, &mut inputs, model.clocks.as_slice())?;
    let mut outputs = NameTable::new(alloc);
    add_all(alloc, &mut outputs, model.outputs.as_slice())?;
    let room = room_for(model.inputs.as_slice(), 0);
    let room = room_for(model.clocks.as_slice(), room);
    Ok(Formals {
        inputs,
        outputs,
        room: room_for(model.outputs.as_slice(), room),
    })
}

/// The tables of models whose names are distinct.
pub(crate) fn tables_of(alloc: Global, models: &[BlifModel]) -> Result<Tables, NoMemory>
    requires { repeats [] (model_names models.now) ≡ false }
    ensures { IfOk result (AreTables models.now) }
{
    let mut names = NameTable::new(alloc);
    let mut formals = Vec::new(alloc);
    for model in models {
        names.add(alloc, model.name.as_slice())?;
        formals.push(formals_of(alloc, model)?)?;
    }
    Ok(Tables { names, formals })
}
