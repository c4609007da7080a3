//! The way up in a tree, by the spans of its nodes.

ghost use Rattle.std.specs.Prelude.{◌≡◌, ◌<◌, List, length, IfOk};
ghost use Rattle.morton_key.specs.declared.keys.Key.{Key};
ghost use Rattle.morton_key.specs.Keys.{IsLawful};
ghost use Rattle.box_handoff.specs.Ends.{AreEnds};
ghost use Rattle.karras_build.specs.Spans.{AreSpans};
ghost use Rattle.karras_build.specs.Linking.{IsLinked};

use crate::Span;
use arrival_core::Up;
use box_handoff::{TreeWays, Ways};
use outside::Memory;
use std::alloc::Global;

/// Which node stands above each range of a tree, and on which side of it: two looks at a list, with no search.
#[derive(Drop)]
pub struct Links {
    ways: TreeWays,
}

impl Ways for Links {
    ghost stands = { λ l keys. AreEnds keys l.ways.first.items l.ways.last.items };

    fn parent(&self, first: u32, last: u32) -> Option<Up> {
        self.ways.parent(first, last)
    }
}

/// So many zeros.
fn zeros(alloc: Global, count: usize) -> Result<Vec<u32>, Memory>
    ensures { IfOk result (λ list. length list.items ≡ count) }
{
    vec![in alloc; 0u32; count].map_err(|_| Memory)
}

/// The way up in the tree of these spans, for whatever keys have it. It takes memory for two numbers a span.
pub fn links_of(alloc: Global, spans: &[Span]) -> Result<Links, Memory>
    requires some { 0 < length spans.now }
    requires spans { (keys : List Key) × IsLawful keys × AreSpans keys spans.now }
    ensures { (keys : List Key) → IsLawful keys → AreSpans keys spans.now →
        IfOk result (λ l. AreEnds keys l.ways.first.items l.ways.last.items) }
{
    let mut first = zeros(alloc, spans.len())?;
    let mut last = zeros(alloc, spans.len())?;
    for i in 0..spans.len() {
        let span = spans[i];
        first[span.split as usize] = span.first;
        last[span.split as usize] = span.last;
    }
    Ok(Links {
        ways: TreeWays::by_split(first, last),
    })
}
