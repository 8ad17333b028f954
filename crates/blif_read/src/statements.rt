//! Statements that stand on one line: latches and instances.

ghost use Rattle.std.specs.Prelude.{◌≡◌, ◌∷◌, [], map, ◌<◌, ◌≤◌, length, not, true, false, IfOk, MatchOption};
ghost use Rattle.std.specs.List.{list_all, position_or_len};
ghost use Rattle.blif_read.specs.Spelled.{control_of, latch_of, subckt_of, pair_of, is_equals};
ghost use Rattle.blif_read.specs.Fault.{latch_fault, is_pair, guard, level_types, edge_types, init_words};
ghost use Rattle.blif_read.specs.Heads.{rest_of, count_fits};
ghost use Rattle.base_tables.specs.Table.{is_among};
ghost use Rattle.blif_read.specs.declared.head.Head.TheVariants as head;
ghost use Rattle.blif_read.specs.State.{TookStatement, TookEdge, TookInit};
ghost use Rattle.blif_read.specs.declared.error.ReadKind.TheVariants as kind;
ghost use Rattle.blif_read.specs.declared.design.Statement.TheVariants as statement;

use crate::blif_lines::{Edge, Init, NoMemory, Seq, Word};
use crate::design::{Pair, Pairs, Statement};
use crate::error::ReadKind;
use crate::head::is_among;
use crate::names::word_of;
use crate::stop::Stop;
use std::alloc::Global;

static LEVEL_TYPES: [&[u8]; 3] = [b"ah", b"al", b"as"];

static EDGE_TYPES: [&[u8]; 2] = [b"re", b"fe"];

static INIT_WORDS: [&[u8]; 4] = [b"0", b"1", b"2", b"3"];

fn is_level_type(word: &[u8]) -> bool
    ensures { result ≡ is_among level_types word.now }
{
    is_among(&LEVEL_TYPES, word)
}

fn is_edge_type(word: &[u8]) -> bool
    ensures { result ≡ is_among edge_types word.now }
{
    is_among(&EDGE_TYPES, word)
}

fn is_init(word: &[u8]) -> bool
    ensures { result ≡ is_among init_words word.now }
{
    is_among(&INIT_WORDS, word)
}

/// The edge of a latch's type.
fn edge_of(alloc: Global, word: &[u8]) -> Result<Edge, Stop>
    ensures { TookEdge word.now result }
{
    if is_level_type(word) {
        return Err(Stop::Fault(ReadKind::Unsupported(word_of(alloc, word)?)));
    }
    if !is_edge_type(word) {
        return Err(Stop::Fault(ReadKind::BadLatchType));
    }
    if word == b"re".as_slice() {
        return Ok(Edge::Rising);
    }
    Ok(Edge::Falling)
}

/// The initial value of a latch.
fn init_of(word: &[u8]) -> Result<Init, Stop>
    ensures { TookInit word.now result }
{
    if !is_init(word) {
        return Err(Stop::Fault(ReadKind::BadInit));
    }
    if word == b"0".as_slice() {
        return Ok(Init::Zero);
    }
    if word == b"1".as_slice() {
        return Ok(Init::One);
    }
    if word == b"2".as_slice() {
        return Ok(Init::DontCare);
    }
    Ok(Init::Unknown)
}

/// The clock of a latch, or none for `NIL`.
fn control_of(alloc: Global, word: &[u8]) -> Result<Option<Word>, NoMemory>
    ensures { IfOk result (λ control. control ≡ control_of word.now) }
{
    if word == b"NIL".as_slice() {
        return Ok(None);
    }
    Ok(Some(word_of(alloc, word)?))
}

/// The latch of these words, of which it keeps copies.
pub(crate) fn latch_with(
    alloc: Global,
    line: u32,
    input: &[u8],
    output: &[u8],
    edge: Option<Edge>,
    control: Option<Word>,
    init: Init,
) -> Result<Statement, NoMemory>
    ensures { IfOk result (λ made. made ≡ statement.Latch line input.now output.now edge control init) }
{
    Ok(Statement::Latch {
        line,
        input: word_of(alloc, input)?,
        output: word_of(alloc, output)?,
        edge,
        control,
        init,
    })
}

fn plain_latch(alloc: Global, line: u32, input: &[u8], output: &[u8]) -> Result<Statement, Stop>
    ensures { TookStatement (latch_fault (input.now ∷ output.now ∷ [])) (latch_of line (input.now ∷ output.now ∷ [])) result }
{
    let latch = latch_with(alloc, line, input, output, None, None, Init::Unknown)?;
    Ok(latch)
}

fn started_latch(
    alloc: Global,
    line: u32,
    input: &[u8],
    output: &[u8],
    start: &[u8],
) -> Result<Statement, Stop>
    ensures { TookStatement (latch_fault (input.now ∷ output.now ∷ start.now ∷ [])) (latch_of line (input.now ∷ output.now ∷ start.now ∷ [])) result }
{
    let init = init_of(start)?;
    let latch = latch_with(alloc, line, input, output, None, None, init)?;
    Ok(latch)
}

fn typed_latch(
    alloc: Global,
    line: u32,
    input: &[u8],
    output: &[u8],
    kind: &[u8],
    control: &[u8],
) -> Result<Statement, Stop>
    ensures { TookStatement (latch_fault (input.now ∷ output.now ∷ kind.now ∷ control.now ∷ [])) (latch_of line (input.now ∷ output.now ∷ kind.now ∷ control.now ∷ [])) result }
{
    let edge = edge_of(alloc, kind)?;
    let control = control_of(alloc, control)?;
    let latch = latch_with(
        alloc,
        line,
        input,
        output,
        Some(edge),
        control,
        Init::Unknown,
    )?;
    Ok(latch)
}

fn full_latch(
    alloc: Global,
    line: u32,
    input: &[u8],
    output: &[u8],
    kind: &[u8],
    control: &[u8],
    start: &[u8],
) -> Result<Statement, Stop>
    ensures { TookStatement (latch_fault (input.now ∷ output.now ∷ kind.now ∷ control.now ∷ start.now ∷ [])) (latch_of line (input.now ∷ output.now ∷ kind.now ∷ control.now ∷ start.now ∷ [])) result }
{
    let edge = edge_of(alloc, kind)?;
    let init = init_of(start)?;
    let control = control_of(alloc, control)?;
    let latch = latch_with(alloc, line, input, output, Some(edge), control, init)?;
    Ok(latch)
}

/// The latch of these tokens.
pub(crate) fn latch_of(alloc: Global, line: u32, args: &[&[u8]]) -> Result<Statement, Stop>
    requires fit { count_fits head.Latch (length args.now) ≡ true }
    ensures { TookStatement (latch_fault (map (λ a. a.now) args.now)) (latch_of line (map (λ a. a.now) args.now)) result }
{
    match args.len() {
        2 => plain_latch(alloc, line, args[0], args[1]),
        3 => started_latch(alloc, line, args[0], args[1], args[2]),
        4 => typed_latch(alloc, line, args[0], args[1], args[2], args[3]),
        _ => full_latch(alloc, line, args[0], args[1], args[2], args[3], args[4]),
    }
}

/// The place of the first `=`, or the length where there is none.
fn equals_place(token: &[u8]) -> usize
    ensures place { result ≡ position_or_len is_equals token.now }
    ensures within { result ≤ length token.now }
{
    for (place, byte) in token.iter().enumerate() {
        if *byte == b'=' {
            return place;
        }
    }
    token.len()
}

/// The pair of a token, or none where a side is missing.
#[tactic(auto, using(crate::proofs::Pairs::pair_at, crate::proofs::Pairs::no_formal, crate::proofs::Pairs::no_actual))]
fn pair_of(alloc: Global, token: &[u8]) -> Result<Option<Pair>, NoMemory>
    ensures { IfOk result (λ pair. MatchOption pair (is_pair token.now ≡ false) (λ p. (is_pair token.now ≡ true) × (p ≡ pair_of token.now))) }
{
    let place = equals_place(token);
    if place == 0 {
        return Ok(None);
    }
    if token.len() - place < 2 {
        return Ok(None);
    }
    Ok(Some(Pair {
        formal: word_of(alloc, &token[..place])?,
        actual: word_of(alloc, &token[place + 1..])?,
    }))
}

/// The pairs of these tokens.
fn pairs_of(alloc: Global, tokens: &[&[u8]]) -> Result<Option<Pairs>, NoMemory>
    ensures { let all = map (λ t. t.now) tokens.now in IfOk result (λ pairs. MatchOption pairs (list_all is_pair all ≡ false) (λ ps. (list_all is_pair all ≡ true) × (ps ≡ map pair_of all))) }
{
    let mut pairs = Seq::new(alloc);
    for token in tokens {
        let Some(pair) = pair_of(alloc, token)? else {
            return Ok(None);
        };
        pairs.push(pair)?;
    }
    Ok(Some(pairs))
}

/// The instance of these tokens: the name of a model, and pairs.
pub(crate) fn subckt_of(alloc: Global, line: u32, args: &[&[u8]]) -> Result<Statement, Stop>
    requires { 0 < length args.now }
    ensures { TookStatement (guard (not (list_all is_pair (rest_of (map (λ a. a.now) args.now)))) kind.BadPair) (subckt_of line (map (λ a. a.now) args.now)) result }
{
    let model = word_of(alloc, args[0])?;
    let Some(pairs) = pairs_of(alloc, &args[1..])? else {
        return Err(Stop::Fault(ReadKind::BadPair));
    };
    Ok(Statement::Subckt { line, model, pairs })
}
