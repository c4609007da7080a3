//! The replies of one pass, summed, and the line that tells the sums.

ghost use Rattle.std.specs.Prelude.{◌≡◌, ◌≤◌, ◌+◌, ◌^◌, ◌++◌, length, IfOk, OnOk, codes};
ghost use Rattle.world_engine.specs.Additions.{added, IsSmall, IsWithin};
ghost use Rattle.world_engine.specs.Sums.{sums_of, sums_text};

use crate::sums::Sums;
use itoa::{Buffer, Integer};
use query_script::Reply;
use std::alloc::{AllocError, Global};

/// A pass has no more replies than this.
pub const MOST_REPLIES: usize = 1024;

/// The sums with a reply more.
fn add(sums: Sums, reply: &Reply) -> Sums
    requires { IsWithin sums MOST_REPLIES }
    ensures sums { result ≡ added sums reply.now }
    ensures small { IsSmall reply.now }
{
    match reply {
        Reply::Hit { tri, .. } => Sums {
            hits: sums.hits + 1,
            numbers: sums.numbers + u128::from(*tri),
            ..sums
        },
        Reply::Miss => Sums {
            misses: sums.misses + 1,
            ..sums
        },
        Reply::Overlaps(numbers) => Sums {
            overlaps: sums.overlaps + numbers.items().len() as u128,
            ..sums
        },
        Reply::WorkIs(work) => Sums {
            work: sums.work + u128::from(*work),
            ..sums
        },
        _ => sums,
    }
}

/// The sums of replies.
pub fn sums_of(replies: &[Reply]) -> Sums
    requires { length replies.now ≤ MOST_REPLIES }
    ensures { result ≡ sums_of replies.now }
{
    let mut sums = Sums {
        hits: 0,
        misses: 0,
        numbers: 0,
        overlaps: 0,
        work: 0,
    };
    for reply in replies {
        sums = add(sums, reply);
    }
    sums
}

/// A word, a space, a number, and what follows.
fn add_named<I: Integer>(text: &mut Vec<u8>, word: &[u8], n: I) -> Result<(), AllocError>
    ensures { OnOk result (text.new.items ≡ text.old.items ++ (word.now ++ (codes " " ++ I.text n))) }
{
    text.extend_from_slice(word)?;
    text.extend_from_slice(b" ")?;
    let mut buffer = Buffer::new();
    text.extend_from_slice(buffer.format(n).as_bytes())
}

/// The line of a pass, with its line feed.
pub fn sums_text(alloc: Global, sums: &Sums) -> Result<Vec<u8>, AllocError>
    ensures { IfOk result (λ text. text.items ≡ sums_text sums.now) }
{
    let mut text = Vec::new(alloc);
    add_named(&mut text, b"hits", sums.hits)?;
    add_named(&mut text, b" misses", sums.misses)?;
    add_named(&mut text, b" numbers", sums.numbers)?;
    add_named(&mut text, b" overlaps", sums.overlaps)?;
    add_named(&mut text, b" work", sums.work)?;
    text.extend_from_slice(b"\n")?;
    Ok(text)
}
