//! A text is offered to a sink until it has taken all of it.

ghost use Rattle.std.specs.Prelude.{◌≡◌, OnOk, OnErr};
ghost use Rattle.std.specs.Io.KnownBytes.{Appends};
ghost use Rattle.outside.specs.Causes.{HasCause};
ghost use Rattle.streams.specs.Owed.{AppendsFront};

use outside::{Failed, Sink};

/// Writes the whole text. Each write offers all that the sink has not yet taken, so each takes at least one byte. After
/// a failure the sink has taken a front of the text.
pub fn write_all<K: Sink>(out: &mut K, text: &[u8]) -> Result<(), Failed>
    ensures whole { OnOk result (Appends (K.written out.old) (K.written out.new) text.now) }
    ensures front { OnErr result (AppendsFront (K.written out.old) (K.written out.new) text.now) }
    ensures cause { HasCause (K.faults out.old) (K.faults out.new) result }
{
    let mut at = 0;
    while at < text.len() {
        at += out.write(&text[at..])?;
    }
    Ok(())
}
