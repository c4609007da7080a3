//! Word that a mesh is refused at a line, byte for byte.

ghost use Rattle.std.specs.Prelude.{◌≡◌, IfOk};
ghost use Rattle.obj_text.specs.Texts.{FaultyLine};
ghost use Rattle.world_engine.specs.Refusals.{refusal_text};

use obj_text::Why;
use query_script::why_text;
use std::alloc::{AllocError, Global};

/// Word that the mesh is refused at a line, with its line feed.
pub fn refusal_text(alloc: Global, line: u32, why: Why) -> Result<Vec<u8>, AllocError>
    ensures { IfOk result (λ text. text.items ≡ refusal_text (record { line = line; why = why })) }
{
    let mut text = Vec::from_slice(alloc, b"mesh line ")?;
    text.extend_from_slice(line.to_string(alloc)?.as_bytes())?;
    text.extend_from_slice(b": ")?;
    text.extend_from_slice(why_text(why).as_bytes())?;
    text.extend_from_slice(b"\n")?;
    Ok(text)
}
