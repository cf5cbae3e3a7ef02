//! Sources of lines, merged by the moments of their lines.
ghost use Rattle.std.specs.Prelude.{◌≡◌, ◌<◌, ◌⊎◌, None, IfOk, IfSome, OnErr, OnOk};
ghost use Rattle.time_merge.specs.Heads.{head_list, HasTurned, HaveEnded, IsAtTurn};
ghost use Rattle.time_merge.specs.Sources.{IsRankOf};

use crate::line_source::{LineSource, Stopped};
use crate::tournament::{ENDED, Rank, Tournament, Turn};
use std::alloc::Global;
use std::marker::Model;
use trace_model::NoMemory;

/// Sources of lines, and which of them has the line that goes first.
#[derive(Drop)]
pub(crate) struct Merged<S: LineSource> {
    sources: Vec<S>,
    /// The ranks of the sources; of the one that goes first it may be an earlier one, or none.
    order: Tournament,
    turn: Turn,
}

impl<S: LineSource> Model for Merged<S> {
    ghost use Rattle.std.specs.Prelude.{List};
    ghost use Rattle.time_merge.specs.Heads.{heads_of};
    ghost use Rattle.time_merge.specs.Sources.{IsTurnOf};

    ghost Value = { List S };

    ghost view = { λ m. m.sources.items };

    ghost invariant = { λ m. IsTurnOf (heads_of S.head m.sources.items) m.order m.turn };
}

/// The rank of the source of this number among others: by the moment of its first line, or after all others that have
/// one.
#[inline(always)]
fn rank_of<S: LineSource>(source: &S, number: usize) -> Rank
    ensures { IsRankOf number (head_list (S.head source.now)) result }
{
    match source.first() {
        Some(line) => Rank {
            moment: line.moment.0,
            source: number,
        },
        None => ENDED,
    }
}

impl<S: LineSource> Merged<S> {
    /// These sources, merged.
    pub(crate) fn of(alloc: Global, sources: Vec<S>) -> Result<Merged<S>, NoMemory>
        ensures { IfOk result (λ merged. merged ≡ sources.items) }
    {
        let mut ranks = Vec::with_capacity(alloc, sources.len())?;
        for number in 0..sources.len() {
            ranks.push(rank_of(&sources[number], number))?;
        }
        let order = Tournament::of(alloc, &ranks)?;
        let turn = order.first_turn();
        Ok(Merged {
            sources,
            order,
            turn,
        })
    }

    /// The source whose line goes first, if there is one.
    #[inline(always)]
    pub(crate) fn at_turn(&self) -> Option<&S>
        ensures some { IfSome result (λ source. IsAtTurn S.head self.now source.now) }
        ensures none { result ≡ None → HaveEnded S.head self.now }
    {
        let source = self.turn.first.source;
        if source >= self.sources.len() {
            // The rank that goes first is `ENDED`: no source has a line.
            return None;
        }
        Some(&self.sources[source])
    }

    /// Goes on after the first line, if there is one.
    #[inline(always)]
    pub(crate) fn advance(&mut self) -> Result<(), Stopped>
        ensures goes { OnOk result (((HaveEnded S.head self.old) × (self.new ≡ self.old))
            ⊎ HasTurned S.head (λ s line t. S.passes s line t × (S.turns t < S.turns s)) self.old self.new) }
        ensures stops { OnErr result
            (HasTurned S.head (λ s line t. S.stopped t × (S.head t ≡ None)) self.old self.new) }
    {
        let source = self.turn.first.source;
        if source >= self.sources.len() {
            return Ok(());
        }
        let outcome = self.sources[source].advance();
        let rank = rank_of(&self.sources[source], source);
        if self.turn.lasts(rank) {
            self.turn.first = rank;
            return outcome;
        }
        self.turn = self.order.turn(source, rank);
        outcome
    }

    /// The sources, in their order.
    pub(crate) fn into_sources(self) -> Vec<S>
        ensures { result.items ≡ self }
    {
        let Merged { sources, .. } = self;
        sources
    }
}
