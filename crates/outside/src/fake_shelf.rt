//! A shelf in memory that holds one file.

ghost use Rattle.std.specs.Prelude.{◌≡◌, ◌↔◌, ◌-◌, ◌<◌, ◌≢◌, ◌⊎◌, Some, [], length, min, take, IfOk, OnOk, OnErr, IsErr};
ghost use Rattle.std.specs.Io.{ReadsAtMost};
ghost use Rattle.outside.specs.Files.{FileIs, FetchGives, FetchHasCause};
ghost use Rattle.outside.specs.Fakes.{count_on, files_of, IsToFail};

use crate::{Failed, Name, Shelf};
use std::marker::Model;

/// A shelf in memory that holds one file.
///
/// A call gives as many bytes as `piece`, the buffer and the file allow. A call for another name fails, and raises no
/// count; else the calls whose numbers, from 1 on, stand in `fail` fail.
#[derive(Drop)]
pub struct MemShelf {
    name: Name,
    bytes: Vec<u8>,
    piece: usize,
    fail: Vec<u64>,
    calls: u64,
    faults: u64,
}

impl Model for MemShelf {
    ghost use Rattle.std.specs.Prelude.{◌<◌};
    ghost use Rattle.outside.specs.Fakes.{FakeShelf};

    ghost Value = { FakeShelf };

    ghost view = { λ s. record {
      name = s.name;
      bytes = s.bytes.items;
      piece = s.piece;
      fail = s.fail.items;
      calls = s.calls;
      faults = s.faults;
    } };

    ghost invariant = { λ s. 0 < s.piece };
}

impl MemShelf {
    /// A shelf that holds these bytes under this name. A call gives at most `piece` of them, and the calls that `fail`
    /// numbers fail.
    pub fn new(name: Name, bytes: Vec<u8>, piece: usize, fail: Vec<u64>) -> MemShelf
        requires { 0 < piece }
        ensures { result ≡ record {
          name = name;
          bytes = bytes.items;
          piece = piece;
          fail = fail.items;
          calls = 0;
          faults = 0;
        } }
    {
        MemShelf {
            name,
            bytes,
            piece,
            fail,
            calls: 0,
            faults: 0,
        }
    }
}

impl Shelf for MemShelf {
    ghost holds = { λ s. Some (files_of s) };

    ghost faults = { λ s. s.faults };

    fn fetch(&mut self, name: &str, at: u64, buf: &mut [u8]) -> Result<usize, Failed>
        requires { 0 < length buf.old }
        ensures bound { ReadsAtMost result buf.new }
        ensures bytes { FileIs (Some (files_of self.old)) name.now
            (λ file. IfOk result (λ n. FetchGives file at n (take n buf.new))) }
        ensures same { Some (files_of self.new) ≡ Some (files_of self.old) }
        ensures cause { FetchHasCause (Some (files_of self.old)) name.now self.old.faults self.new.faults result }

        // It fails exactly where the name is another or it was told to, and else gives all that it can.
        ensures quiet { self.old.fail ≡ [] → self.new.faults ≡ self.old.faults }
        ensures fails { IsErr result ↔ ((name.now ≢ self.old.name) ⊎ IsToFail self.old.fail self.old.calls) }
        ensures count { IfOk result (λ n. n ≡ min self.old.piece (min (length buf.old) (length self.old.bytes - at))) }
        ensures ok { OnOk result (self.new ≡ record self.old { calls = count_on self.old.calls }) }
        ensures other_name { name.now ≢ self.old.name → self.new ≡ record self.old { calls = count_on self.old.calls } }
        ensures err { name.now ≡ self.old.name →
            OnErr result
            (self.new ≡ record self.old { calls = count_on self.old.calls; faults = count_on self.old.faults }) }
    {
        self.calls = self.calls.saturating_add(1);
        if name.as_bytes() != self.name.bytes() {
            return Err(Failed);
        }
        if self.fail.as_slice().contains(&self.calls) {
            self.faults = self.faults.saturating_add(1);
            return Err(Failed);
        }
        let len = self.bytes.len() as u64;
        let start = at.min(len) as usize;
        let rest = &self.bytes.as_slice()[start..];
        let count = rest.len().min(self.piece).min(buf.len());
        buf[..count].copy_from_slice(&rest[..count]);
        Ok(count)
    }
}
