//! A script that comes in pieces, line by line. What is owed for all later bytes is stated at once, so that one
//! clause serves whole scripts, scripts cut at the limit, and scripts whose reading failed.

ghost use Rattle.std.specs.Prelude.{◌≡◌, ◌≤◌, ◌<◌, ◌+◌, ◌^◌, ◌++◌, [], true, ℕ, List, Bool, length, IfOk, OnOk, OnErr, IsErrOf};
ghost use Rattle.std.specs.Io.KnownBytes.{Appends};
ghost use Rattle.text_words.specs.Lines.{IsOneLine};
ghost use Rattle.streams.specs.Owed.{Owes, AppendsFront};
ghost use Rattle.streams.specs.Answers.{text_left, state_left, AnswersBy};
ghost use Rattle.streams.specs.Stops.{StopsAtSink};

use crate::{Answerer, Stop, write_all};
use outside::{Memory, Sink};
use std::alloc::Global;
use text_words::first_line;

/// An answerer in the midst of a script, with the bytes of the line that has not ended.
#[derive(Drop)]
pub struct Session<A: Answerer + Drop> {
    pub answerer: A,
    pub line: Vec<u8>,
    pub number: u32,
    pub ghost one_line: { IsOneLine line.items },
}

impl<A: Answerer + Drop> Session<A> {
    /// Before the first byte.
    pub fn new(alloc: Global, answerer: A) -> Session<A>
        ensures answerer { result.answerer ≡ answerer }
        ensures line { result.line.items ≡ [] }
        ensures number { result.number ≡ 1 }
    {
        Session {
            answerer,
            line: Vec::new(alloc),
            number: 1,
        }
    }

    /// Answers the line, which has ended.
    fn answer_line<F: Fn(&mut A, u32, &[u8]) -> Result<Vec<u8>, Memory>, K: Sink>(
        &mut self,
        answer: &F,
        out: &mut K,
    ) -> Result<(), Stop>
        requires callable { F.IsAlwaysCallable answer.now }
        requires answers { AnswersBy A.text A.after (F.post answer.now) }
        requires room { self.old.number + 1 < 2 ^ 32 }
        ensures text { OnOk result (Appends (K.written out.old) (K.written out.new) (A.text self.old.answerer self.old.number self.old.line.items)) }
        ensures state { OnOk result (self.new.answerer ≡ A.after self.old.answerer self.old.line.items) }
        ensures line { OnOk result (self.new.line.items ≡ []) }
        ensures number { OnOk result (self.new.number ≡ self.old.number + 1) }
        ensures front { OnErr result (AppendsFront (K.written out.old) (K.written out.new) (A.text self.old.answerer self.old.number self.old.line.items)) }
        ensures stops { StopsAtSink result (K.faults out.old) (K.faults out.new) }
    {
        let Ok(text) = answer(&mut self.answerer, self.number, &self.line) else {
            return Err(Stop::Memory);
        };
        let Ok(()) = write_all(out, &text) else {
            return Err(Stop::Write);
        };
        self.number += 1;
        self.line.clear();
        Ok(())
    }

    /// Takes the next bytes of the script, and answers each line that has ended.
    pub fn feed<F: Fn(&mut A, u32, &[u8]) -> Result<Vec<u8>, Memory>, K: Sink>(
        &mut self,
        answer: &F,
        piece: &[u8],
        out: &mut K,
    ) -> Result<(), Stop>
        requires callable { F.IsAlwaysCallable answer.now }
        requires answers { AnswersBy A.text A.after (F.post answer.now) }
        requires room { self.old.number + length piece.now < 2 ^ 32 }
        ensures owes { (unfinished : Bool) (more : List ℕ) → OnOk result (Owes (K.written out.old) (K.written out.new)
            (text_left A.text A.after self.old.answerer self.old.number unfinished (self.old.line.items ++ (piece.now ++ more)))
            (text_left A.text A.after self.new.answerer self.new.number unfinished (self.new.line.items ++ more))) }
        ensures state { (unfinished : Bool) (more : List ℕ) → OnOk result (
            state_left A.after self.new.answerer unfinished (self.new.line.items ++ more)
            ≡ state_left A.after self.old.answerer unfinished (self.old.line.items ++ (piece.now ++ more))) }
        ensures number { OnOk result (self.new.number ≤ self.old.number + length piece.now) }
        ensures front { (unfinished : Bool) (more : List ℕ) → OnErr result (AppendsFront (K.written out.old) (K.written out.new)
            (text_left A.text A.after self.old.answerer self.old.number unfinished (self.old.line.items ++ (piece.now ++ more)))) }
        ensures stops { StopsAtSink result (K.faults out.old) (K.faults out.new) }
    {
        let mut rest = piece;
        while let Some((front, back)) = first_line(rest) {
            let Ok(()) = self.line.extend_from_slice(front) else {
                return Err(Stop::Memory);
            };
            self.answer_line(answer, out)?;
            rest = back;
        }
        let Ok(()) = self.line.extend_from_slice(rest) else {
            return Err(Stop::Memory);
        };
        Ok(())
    }

    /// Answers an unfinished last line, and gives the answerer back.
    pub fn finish<F: Fn(&mut A, u32, &[u8]) -> Result<Vec<u8>, Memory>, K: Sink>(
        mut self,
        answer: &F,
        out: &mut K,
    ) -> Result<A, Stop>
        requires callable { F.IsAlwaysCallable answer.now }
        requires answers { AnswersBy A.text A.after (F.post answer.now) }
        requires room { self.number + 1 < 2 ^ 32 }
        ensures text { OnOk result (Appends (K.written out.old) (K.written out.new) (text_left A.text A.after self.answerer self.number true self.line.items)) }
        ensures state { IfOk result (λ answerer. answerer ≡ state_left A.after self.answerer true self.line.items) }
        ensures front { OnErr result (AppendsFront (K.written out.old) (K.written out.new) (text_left A.text A.after self.answerer self.number true self.line.items)) }
        ensures stops { StopsAtSink result (K.faults out.old) (K.faults out.new) }
    {
        if self.line.is_empty() {
            let Session { answerer, .. } = self;
            return Ok(answerer);
        }
        self.answer_line(answer, out)?;
        let Session { answerer, .. } = self;
        Ok(answerer)
    }
}
