//! A file is fetched in pieces, each from the place where the last one ended.

ghost use Rattle.std.specs.Prelude.{◌≡◌, ◌⊎◌, ◌≤◌, ◌<◌, ◌^◌, IfOk, OnOk, IsErrOf};
ghost use Rattle.outside.specs.Causes.{Rose};
ghost use Rattle.outside.specs.Files.{FileIs, IsAbsent};
ghost use Rattle.streams.specs.Loads.{IsLoadedFile, IsWithin};

use crate::{FILE_PIECE, LoadFault, Loaded};
use outside::Shelf;
use std::alloc::Global;

/// All bytes of the named file, where these are at most `limit`. It asks for no byte past the first one too many.
pub fn fetch_all<H: Shelf>(
    alloc: Global,
    shelf: &mut H,
    name: &str,
    limit: usize,
) -> Result<Loaded, LoadFault>
    requires { limit < 2 ^ 62 }

    ensures whole { IfOk result (λ loaded. FileIs (H.holds shelf.old) name.now (λ file. IsLoadedFile limit loaded file)) }
    ensures within { IfOk result (IsWithin limit) }
    ensures same { H.holds shelf.new ≡ H.holds shelf.old }

    ensures read { IsErrOf result LoadFault.Read → Rose (H.faults shelf.old) (H.faults shelf.new) ⊎ IsAbsent (H.holds shelf.old) name.now }
    ensures kept { ¬ IsErrOf result LoadFault.Read → H.faults shelf.new ≡ H.faults shelf.old }
    ensures later { H.faults shelf.old ≤ H.faults shelf.new }
{
    let mut all = Vec::new(alloc);
    let mut piece = [0u8; FILE_PIECE];
    loop {
        let at = all.len() as u64;
        let most = FILE_PIECE.min(limit + 1 - all.len());
        let Ok(count) = shelf.fetch(name, at, &mut piece[..most]) else {
            return Err(LoadFault::Read);
        };
        if count == 0 {
            return Ok(Loaded::Whole(all));
        }
        if limit - all.len() < count {
            return Ok(Loaded::TooLong);
        }
        let Ok(()) = all.extend_from_slice(&piece[..count]) else {
            return Err(LoadFault::Memory);
        };
    }
}
