//! Covers made in a graph.

ghost use Rattle.std.specs.Prelude.{◌≡◌, ℕ, ◌*◌, ◌<◌, ◌≤◌, map, length, All, IfOk, option_map, if◌then◌else◌};
ghost use Rattle.aig.specs.Graph.{flip};
ghost use Rattle.aig.specs.Rules.{place_lit};
ghost use Rattle.tree_graph.specs.declared.covers.TheConstants.{MOST_NODES};
ghost use Rattle.aig.specs.Making.{MakesAnd, MakesPlace, MakesCube, MakesRow, MakesCover};

use aig::{Aig, Lit, NoMemory};
use flat_net::Cover;

/// A graph of two trees has no more nodes. The unfoldings of two circuits that are compared weigh 4,000,000 together, so they don't come to
/// as many.
pub const MOST_NODES: u32 = 0x1000_0000;

/// Makes the cover of these fan-ins, one for each column.
pub(crate) fn make_cover(aig: &mut Aig, cover: &Cover, fanins: &[Lit]) -> Result<Lit, NoMemory>
    requires within { All (λ f. f.0 < 2 * length aig.old) fanins.now }
    requires width { length fanins.now ≡ cover.now.width }
    requires few { length aig.old ≤ MOST_NODES }
    ensures made { IfOk result (λ x. MakesCover aig.old cover.now (map (λ f. f.0) fanins.now) aig.new x.0) }
    ensures within { IfOk result (λ x. x.0 < 2 * length aig.new) }
    ensures few { length aig.new ≤ MOST_NODES }
{
    cover.keeps();
    aig.keeps();
    let rows = cover.rows();
    let mut lit = Lit::FALSE;
    for i in 0..rows.len() {
        let next = make_row(aig, lit, rows[i].as_slice(), fanins)?;
        lit = next;
    }
    Ok(signed(lit, cover.on()))
}

/// Makes the literal so far, or the row's cube.
fn make_row(aig: &mut Aig, from: Lit, row: &[u8], fanins: &[Lit]) -> Result<Lit, NoMemory>
    requires from { from.0 < 2 * length aig.old }
    requires within { All (λ f. f.0 < 2 * length aig.old) fanins.now }
    requires width { length fanins.now ≡ length row.now }
    requires few { length aig.old ≤ MOST_NODES }
    ensures made { IfOk result (λ x. MakesRow aig.old from.0 row.now (map (λ f. f.0) fanins.now) aig.new x.0) }
    ensures within { IfOk result (λ x. x.0 < 2 * length aig.new) }
    ensures few { length aig.new ≤ MOST_NODES }
{
    let cube = make_cube(aig, row, fanins)?;
    let left = Aig::not(from);
    let right = Aig::not(cube);
    let both = make_and(aig, left, right)?;
    Ok(Aig::not(both))
}

/// Makes the and of what the places ask of their fan-ins.
fn make_cube(aig: &mut Aig, places: &[u8], fanins: &[Lit]) -> Result<Lit, NoMemory>
    requires some { 0 < length aig.old }
    requires within { All (λ f. f.0 < 2 * length aig.old) fanins.now }
    requires width { length fanins.now ≡ length places.now }
    requires few { length aig.old ≤ MOST_NODES }
    ensures made { IfOk result (λ x. MakesCube aig.old 1 places.now (map (λ f. f.0) fanins.now) aig.new x.0) }
    ensures within { IfOk result (λ x. x.0 < 2 * length aig.new) }
    ensures few { length aig.new ≤ MOST_NODES }
{
    let mut lit = Lit::TRUE;
    for i in 0..places.len() {
        let next = make_place(aig, lit, places[i], fanins[i])?;
        lit = next;
    }
    Ok(lit)
}

/// Makes the literal so far, and what the place asks of its fan-in.
fn make_place(aig: &mut Aig, from: Lit, place: u8, fanin: Lit) -> Result<Lit, NoMemory>
    requires from { from.0 < 2 * length aig.old }
    requires fanin { fanin.0 < 2 * length aig.old }
    requires few { length aig.old ≤ MOST_NODES }
    ensures made { IfOk result (λ x. MakesPlace aig.old from.0 (place_lit place fanin.0) aig.new x.0) }
    ensures within { IfOk result (λ x. x.0 < 2 * length aig.new) }
    ensures few { length aig.new ≤ MOST_NODES }
{
    match place_lit(place, fanin) {
        None => Ok(from),
        Some(l) => make_and(aig, from, l),
    }
}

/// Makes the and, if the graph has room for a node.
fn make_and(aig: &mut Aig, l: Lit, r: Lit) -> Result<Lit, NoMemory>
    requires left { l.0 < 2 * length aig.old }
    requires right { r.0 < 2 * length aig.old }
    requires few { length aig.old ≤ MOST_NODES }
    ensures made { IfOk result (λ x. MakesAnd aig.old l.0 r.0 aig.new x.0) }
    ensures within { IfOk result (λ x. x.0 < 2 * length aig.new) }
    ensures few { length aig.new ≤ MOST_NODES }
{
    if aig.size() >= MOST_NODES {
        return Err(NoMemory);
    }
    aig.and(l, r)
}

/// The literal, or its complement.
fn signed(l: Lit, plain: bool) -> Lit
    ensures literal { result.0 ≡ (if plain then l.0 else flip l.0) }
    ensures within { (n : ℕ) → l.0 < 2 * n → result.0 < 2 * n }
{
    if plain { l } else { Aig::not(l) }
}

/// What a place of a row asks of its fan-in.
#[tactic(auto, unfolding(aig::specs::Rules::place_lit))]
fn place_lit(place: u8, fanin: Lit) -> Option<Lit>
    ensures { option_map (λ l. l.0) result ≡ place_lit place fanin.0 }
{
    match place {
        b'-' => None,
        b'1' => Some(fanin),
        b'0' => Some(Aig::not(fanin)),
        _ => Some(Lit::FALSE),
    }
}
