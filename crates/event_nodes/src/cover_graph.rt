//! An and-inverter graph that makes a wide cover of the same fan-ins once.

ghost use Rattle.std.specs.Prelude.{◌≡◌, ℕ, ◌+◌, ◌*◌, ◌^◌, ◌<◌, ◌≤◌, ◌&&◌, Bool, List, [], ◌∷◌, length, map, All, IfOk, OnErr};
ghost use Rattle.aig.specs.declared.node.Node.TheVariants.{Constant, Input};
ghost use Rattle.aig.specs.Builds.{HasOneLitAt, HasTreeValuesAt};
ghost use Rattle.aig.specs.Graph.{IsGraph, Grows, IsLitOf};
ghost use Rattle.aig.specs.Rules.{IsAndOf, IsCoverOf, cover_room};
ghost use Rattle.aig.specs.Values.{value};

mod made;

use crate::cover_graph::made::{MadeCover, lit_before};
use aig::{Aig, Lit};
use flat_net::{Cover, NoMemory};
use std::alloc::Global;
use std::marker::Model;

/// The least cells, rows times fan-ins, of a cover that is remembered: a lesser one is as quickly made again as looked up.
const WIDE: usize = 4_096;

/// The most cells of all covers that are remembered, a byte each.
const REMEMBERED: usize = 16_777_216;

/// An and-inverter graph, and the wide covers that were made in it with their fan-ins and literals: where many functions read one wide gate,
/// its nodes are looked up once. A contract sees the graph's nodes.
pub struct CoverGraph {
    aig: Aig,
    made: Vec<MadeCover>,
    cells: usize,
    alloc: Global,
}

/// It is let go by one call: an owner isn't taken apart field by field at each way out.
impl Drop for CoverGraph {
    fn drop(self) {
        let CoverGraph {
            aig: _,
            made: _,
            cells: _,
            alloc: _,
        } = self;
    }
}

impl Model for CoverGraph {
    ghost use Rattle.std.specs.Prelude.{List, All};
    ghost use Rattle.aig.specs.declared.node.Node.{Node};
    ghost use Rattle.event_nodes.specs.Covers.{IsMadeCover};

    ghost Value = { List Node };

    ghost view = { λ g. g.aig };

    ghost invariant = { λ g. All (IsMadeCover g.aig) g.made.items };
}

impl CoverGraph {
    /// The graph with the constant alone.
    pub fn new(alloc: Global) -> Result<CoverGraph, NoMemory>
        ensures { IfOk result (λ g. g ≡ Constant ∷ []) }
    {
        let aig = Aig::new(alloc)?;
        Ok(CoverGraph {
            aig,
            made: Vec::new(alloc),
            cells: 0,
            alloc,
        })
    }

    /// Tells a proof what each graph keeps. It does nothing.
    pub fn keeps(&self)
        ensures graph { IsGraph self.now }
        ensures one_node { HasOneLitAt (List ℕ) self.now }
        ensures node_values { HasTreeValuesAt (List ℕ) self.now }
    {
        self.aig.keeps();
    }

    /// The graph alone.
    pub fn aig(&self) -> &Aig
        ensures { result.now ≡ self.now }
    {
        &self.aig
    }

    /// How many nodes there are.
    pub fn size(&self) -> u32
        ensures { result ≡ length self.now }
    {
        self.aig.size()
    }

    /// The literal of the variable with this number.
    pub fn input(&mut self, var: u32) -> Result<Lit, NoMemory>
        requires room { length self.old + 1 < 2 ^ 30 }
        requires small { var + 1 < 2 ^ 32 }
        ensures here { IfOk result (λ l. IsLitOf self.new (Input var) l.0) }
        ensures within { IfOk result (λ l. l.0 < 2 * length self.new) }
        ensures grows { Grows self.old self.new }
        ensures few { length self.new ≤ length self.old + 1 }
    {
        self.aig.input(var)
    }

    /// The literal of the and. After `NoMemory` nothing has changed.
    pub fn and(&mut self, l: Lit, r: Lit) -> Result<Lit, NoMemory>
        requires left { l.0 < 2 * length self.old }
        requires right { r.0 < 2 * length self.old }
        requires room { length self.old + 1 < 2 ^ 30 }
        ensures here { IfOk result (λ x. IsAndOf self.new l.0 r.0 x.0) }
        ensures within { IfOk result (λ x. x.0 < 2 * length self.new) }
        ensures value { IfOk result (λ x. (a : ℕ → Bool) → value self.new a x.0 ≡ (value self.old a l.0 && value self.old a r.0)) }
        ensures grows { Grows self.old self.new }
        ensures few { length self.new ≤ length self.old + 1 }
        ensures err { OnErr result (self.new ≡ self.old) }
    {
        self.aig.and(l, r)
    }

    /// The literal of the cover's function of the fan-ins. After `NoMemory` nodes may have been added.
    pub fn cover(&mut self, cover: &Cover, fanins: &[Lit]) -> Result<Lit, NoMemory>
        requires within { All (λ f. f.0 < 2 * length self.old) fanins.now }
        requires width { length fanins.now ≡ cover.now.width }
        requires room { length self.old + cover_room cover.now < 2 ^ 30 }
        ensures here { IfOk result (λ x. IsCoverOf self.new cover.now (map (λ f. f.0) fanins.now) x.0) }
        ensures within { IfOk result (λ x. x.0 < 2 * length self.new) }
        ensures grows { Grows self.old self.new }
        ensures few { length self.new ≤ length self.old + cover_room cover.now }
    {
        let cells = cover.rows().len().saturating_mul(fanins.len());
        if cells < WIDE {
            return self.aig.cover(cover, fanins);
        }
        match lit_before(self.made.as_slice(), cover, fanins) {
            Some(lit) => Ok(lit),
            None => self.make(cover, fanins, cells),
        }
    }

    /// The same, where it wasn't made before and has so many cells. It is remembered while there is room for its cells.
    fn make(&mut self, cover: &Cover, fanins: &[Lit], cells: usize) -> Result<Lit, NoMemory>
        requires within { All (λ f. f.0 < 2 * length self.old) fanins.now }
        requires width { length fanins.now ≡ cover.now.width }
        requires room { length self.old + cover_room cover.now < 2 ^ 30 }
        ensures here { IfOk result (λ x. IsCoverOf self.new cover.now (map (λ f. f.0) fanins.now) x.0) }
        ensures within { IfOk result (λ x. x.0 < 2 * length self.new) }
        ensures grows { Grows self.old self.new }
        ensures few { length self.new ≤ length self.old + cover_room cover.now }
    {
        let lit = self.aig.cover(cover, fanins)?;
        let cells = self.cells.saturating_add(cells);
        if cells <= REMEMBERED {
            let made = MadeCover::new(self.alloc, cover, fanins, lit)?;
            self.made.push(made)?;
            self.cells = cells;
        }
        Ok(lit)
    }
}
