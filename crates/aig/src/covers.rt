//! Covers on the graph.

ghost use Rattle.std.specs.Prelude.{◌≡◌, ℕ, ◌+◌, ◌*◌, ◌^◌, ◌<◌, ◌≤◌, Bool, map, length, All, IfOk, option_map, if◌then◌else◌};
ghost use Rattle.sec_base.specs.circuit_theory.Cover.{cover_value};
ghost use Rattle.aig.specs.Graph.{Grows, flip, vars_of};
ghost use Rattle.aig.specs.Values.{value, KeepsValues};
ghost use Rattle.aig.specs.Making.{MakesPlace, MakesCube, MakesRow, MakesCover};
ghost use Rattle.aig.specs.Rules.{IsCoverOf, IsRowOf, IsCubeOf, IsPlaceOf, place_lit, cover_room};

use crate::graph::Aig;
use crate::node::Lit;
use sec_base::{Cover, NoMemory};

impl Aig {
    /// The literal of the cover's function of the fan-ins: one literal of the graph for each column, in their order. The
    /// same arguments give the same literal. No node is made without need. A cover of r rows and w columns makes at most r * (w + 1) nodes, and with
    /// these the graph has fewer than 2^30. After `NoMemory`, which comes where memory was wanted, nodes may have been
    /// added, and those from before stand as they stood.
    pub fn cover(&mut self, cover: &Cover, fanins: &[Lit]) -> Result<Lit, NoMemory>
        requires within { All (λ f. f.0 < 2 * length self.old) fanins.now }
        requires width { length fanins.now ≡ cover.now.width }
        requires room { length self.old + cover_room cover.now < 2 ^ 30 }
        ensures here { IfOk result (λ x. IsCoverOf self.new cover.now (map (λ f. f.0) fanins.now) x.0) }
        ensures within { IfOk result (λ x. x.0 < 2 * length self.new) }
        ensures value { IfOk result (λ x. (a : ℕ → Bool) → value self.new a x.0 ≡ cover_value cover.now (map (λ f. value self.old a f.0) fanins.now)) }
        ensures grows { Grows self.old self.new }
        ensures older { KeepsValues self.old self.new }
        ensures few { length self.new ≤ length self.old + cover_room cover.now }
        ensures vars { vars_of self.new ≡ vars_of self.old }
        ensures made { IfOk result (λ x. MakesCover self.old cover.now (map (λ f. f.0) fanins.now) self.new x.0) }
    {
        cover.keeps();
        self.keeps();
        let rows = cover.rows();
        let mut lit = Lit::FALSE;
        for i in 0..rows.len() {
            let next = self.row(lit, rows[i].as_slice(), fanins)?;
            lit = next;
        }
        self.keeps();
        Ok(signed(lit, cover.on()))
    }

    /// The literal so far, or the row's cube.
    fn row(&mut self, from: Lit, row: &[u8], fanins: &[Lit]) -> Result<Lit, NoMemory>
        requires from { from.0 < 2 * length self.old }
        requires within { All (λ f. f.0 < 2 * length self.old) fanins.now }
        requires width { length fanins.now ≡ length row.now }
        requires room { length self.old + length row.now + 1 < 2 ^ 30 }
        ensures here { IfOk result (λ x. IsRowOf self.new from.0 row.now (map (λ f. f.0) fanins.now) x.0) }
        ensures within { IfOk result (λ x. x.0 < 2 * length self.new) }
        ensures grows { Grows self.old self.new }
        ensures few { length self.new ≤ length self.old + length row.now + 1 }
        ensures vars { vars_of self.new ≡ vars_of self.old }
        ensures made { IfOk result (λ x. MakesRow self.old from.0 row.now (map (λ f. f.0) fanins.now) self.new x.0) }
    {
        let cube = self.cube(row, fanins)?;
        let left = Aig::not(from);
        let right = Aig::not(cube);
        let both = self.and(left, right)?;
        Ok(Aig::not(both))
    }

    /// The and of what the places ask of their fan-ins.
    fn cube(&mut self, places: &[u8], fanins: &[Lit]) -> Result<Lit, NoMemory>
        requires within { All (λ f. f.0 < 2 * length self.old) fanins.now }
        requires some { 0 < length self.old }
        requires width { length fanins.now ≡ length places.now }
        requires room { length self.old + length places.now < 2 ^ 30 }
        ensures here { IfOk result (λ x. IsCubeOf self.new 1 places.now (map (λ f. f.0) fanins.now) x.0) }
        ensures within { IfOk result (λ x. x.0 < 2 * length self.new) }
        ensures grows { Grows self.old self.new }
        ensures few { length self.new ≤ length self.old + length places.now }
        ensures vars { vars_of self.new ≡ vars_of self.old }
        ensures made { IfOk result (λ x. MakesCube self.old 1 places.now (map (λ f. f.0) fanins.now) self.new x.0) }
    {
        let mut lit = Lit::TRUE;
        for i in 0..places.len() {
            let next = self.place(lit, places[i], fanins[i])?;
            lit = next;
        }
        Ok(lit)
    }

    /// The literal so far, and what the place asks of its fan-in.
    fn place(&mut self, from: Lit, place: u8, fanin: Lit) -> Result<Lit, NoMemory>
        requires from { from.0 < 2 * length self.old }
        requires fanin { fanin.0 < 2 * length self.old }
        requires room { length self.old + 1 < 2 ^ 30 }
        ensures here { IfOk result (λ x. IsPlaceOf self.new from.0 (place_lit place fanin.0) x.0) }
        ensures within { IfOk result (λ x. x.0 < 2 * length self.new) }
        ensures grows { Grows self.old self.new }
        ensures few { length self.new ≤ length self.old + 1 }
        ensures vars { vars_of self.new ≡ vars_of self.old }
        ensures made { IfOk result (λ x. MakesPlace self.old from.0 (place_lit place fanin.0) self.new x.0) }
    {
        match place_lit(place, fanin) {
            None => Ok(from),
            Some(l) => self.and(from, l),
        }
    }
}

/// The literal, or its complement.
fn signed(l: Lit, plain: bool) -> Lit
    ensures literal { result.0 ≡ (if plain then l.0 else flip l.0) }
    ensures within { (n : ℕ) → l.0 < 2 * n → result.0 < 2 * n }
{
    if plain { l } else { Aig::not(l) }
}

#[tactic(auto, unfolding(crate::specs::Rules::place_lit))]
fn place_lit(place: u8, fanin: Lit) -> Option<Lit>
    ensures { option_map (λ l. l.0) result ≡ place_lit place fanin.0 }
{
    match place {
        b'-' => None,
        b'1' => Some(fanin),
        b'0' => Some(Aig::not(fanin)),
        _ => Some(Lit::FALSE),
    }
}
