//! The range and the split of a node from its number alone.
//! Its range grows to the neighbour that shares more with it, as far as more is shared than with the other one.

ghost use Rattle.std.specs.Prelude.{◌≡◌, ◌+◌, ◌-◌, ◌<◌, length, IfOk};
ghost use Rattle.morton_key.specs.Keys.{IsLawful};
ghost use Rattle.radix_tree.specs.Ranges.{IsNode};
ghost use Rattle.karras_build.specs.Spans.{IsSpan, AreSpans};

use crate::Span;
use crate::searching::furthest;
use crate::ways::Way;
use morton_key::{Key, common_prefix};
use outside::Memory;
use radix_tree::split_of;
use rayon::prelude::*;
use std::alloc::{AllocError, Global};
use std::thread::Threads;

/// A shorter list is made in place: it is not worth the threads.
pub const LEAST_LIST: usize = 8192;

/// The first and the last position of the node of that number.
fn range_of(keys: &[Key], number: usize) -> (usize, usize)
    requires lawful { IsLawful keys.now }
    requires within { number + 1 < length keys.now }
    ensures node { IsNode keys.now number result.0 result.1 }
    ensures order { result.0 < result.1 }
    ensures within { result.1 < length keys.now }
{
    if number == 0 {
        return (0, keys.len() - 1);
    }
    let before = common_prefix(keys, number - 1, number);
    let after = common_prefix(keys, number, number + 1);
    if before < after {
        (number, number + furthest(keys, number, Way::Up, before))
    } else {
        (number - furthest(keys, number, Way::Down, after), number)
    }
}

/// The range and the split of the node of that number, found from the keys alone. It takes no memory.
///
/// The range goes from the number towards the neighbour that shares the longer prefix with it, as far as the prefix is
/// longer than that of the other neighbour (Karras, HPG 2012, section 4).
pub fn find(keys: &[Key], i: u32) -> Span
    requires lawful { IsLawful keys.now }
    requires within { i + 1 < length keys.now }
    ensures { IsSpan keys.now i result }
{
    let (first, last) = range_of(keys, i as usize);
    let split = split_of(keys, first, last);
    Span {
        first: first as u32,
        last: last as u32,
        split: split as u32,
    }
}

/// Finds the span of each number in turn.
fn find_in_turn(keys: &[Key], list: &mut [Span])
    requires lawful { IsLawful keys.now }
    requires room { length list.old ≡ length keys.now - 1 }
    ensures { AreSpans keys.now list.new }
{
    for (i, span) in list.iter_mut().enumerate() {
        *span = find(keys, i as u32);
    }
}

/// Finds the spans in as many threads as there are processors.
fn find_in_threads<R: Threads + Sync>(rt: &R, keys: &[Key], list: &mut [Span])
    requires lawful { IsLawful keys.now }
    requires room { length list.old ≡ length keys.now - 1 }
    ensures { AreSpans keys.now list.new }
{
    par_for_each_mut(
        rt,
        list,
        |i: usize, span: &mut Span|
            requires { IsLawful keys.now × (i + 1 < length keys.now) }
            ensures { IsSpan keys.entry.now i span.new }
        {
            *span = find(keys, i as u32);
        },
    );
}

/// A span for each number, still to be found.
fn blank(alloc: Global, keys: &[Key]) -> Result<Vec<Span>, AllocError>
    ensures { IfOk result (λ list. length list.items ≡ length keys.now - 1) }
{
    let nothing = Span {
        first: 0,
        last: 0,
        split: 0,
    };
    vec![in alloc; nothing; keys.len().saturating_sub(1)]
}

/// The spans of all inner nodes, by number: one fewer than keys, and none for no key.
///
/// Each is what `find` answers. A long list is shared among as many threads as there are processors. It takes memory
/// for the answer alone.
pub fn spans<R: Threads + Sync>(rt: &R, alloc: Global, keys: &[Key]) -> Result<Vec<Span>, Memory>
    requires { IsLawful keys.now }
    ensures { IfOk result (λ list. AreSpans keys.now list.items) }
{
    let mut list = blank(alloc, keys).map_err(|_| Memory)?;
    if list.len() < LEAST_LIST {
        find_in_turn(keys, &mut list);
    } else {
        find_in_threads(rt, keys, &mut list);
    }
    Ok(list)
}
