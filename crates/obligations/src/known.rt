//! What is known of the queries before they are decided.

ghost use Rattle.std.specs.Prelude.{◌<◌, ◌^◌, length, IfOk, OnOk};
ghost use Rattle.obligations.specs.Asked.{AreAsked, AreKnown, queries_of};
ghost use Rattle.obligations.specs.Agreed.{AreAgreed};

use crate::numbered::{left_open, wide};
use crate::obligation::Obligation;
use crate::outcome::{Aig, NoMemory};
use crate::sides::sweep_asked;
use crate::words::{WordBit, ask_words, no_bits};
use std::alloc::Global;
use swept_queries::SweptQueries;
use swept_queries::node_agreement::Model;

/// What the sweep tells of the queries, and for each obligation two literals that agree, its sides where that is shown by words.
#[derive(Drop)]
pub(crate) struct KnownSides {
    pub(crate) swept: SweptQueries,
    pub(crate) bits: Vec<WordBit>,
}

/// Sweeps the graph for the queries that may need a search, on which assignments near these models are tried, and asks words: before that
/// where the graph looks like products, and what they tell isn't swept; else behind it.
pub(crate) fn known_sides(
    alloc: Global,
    aig: &Aig,
    asked: &[Obligation],
    models: &[Model],
    conflicts: u32,
) -> Result<KnownSides, NoMemory>
    requires { AreAsked aig.now asked.now }
    ensures known { IfOk result (λ known. AreKnown aig.now known.swept (queries_of asked.now)) }
    ensures agreed { IfOk result (λ known. AreAgreed aig.now known.bits.items) }
    ensures few { OnOk result (length (queries_of asked.now) < 2 ^ 64) }
{
    let mut bits = no_bits(alloc, asked.len())?;
    let wide = wide(alloc, aig, asked)?;
    ask_words(alloc, aig, asked, wide.as_slice(), bits.as_mut_slice())?;
    let swept = sweep_asked(alloc, aig, asked, bits.as_slice(), models, conflicts)?;
    let open = left_open(alloc, aig, asked, &swept)?;
    ask_words(alloc, aig, asked, open.as_slice(), bits.as_mut_slice())?;
    Ok(KnownSides { swept, bits })
}
