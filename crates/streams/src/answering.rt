//! A script is read in pieces and answered line by line, up to a limit. Each answer is written before the next line is
//! answered.

ghost use Rattle.std.specs.Prelude.{◌≡◌, ◌≤◌, ◌<◌, ◌+◌, ◌^◌, ◌↔◌, false, length, IfOk, IfSome, OnOk, OnErr, IsErrOf};
ghost use Rattle.std.specs.Io.KnownBytes.{Appends};
ghost use Rattle.outside.specs.Causes.{Rose};
ghost use Rattle.streams.specs.Owed.{AppendsFront};
ghost use Rattle.streams.specs.Answers.{answers_from, state_after, lines_within, text_left, AnswersBy};
ghost use Rattle.streams.specs.Taken.{Taken, Loses, LosesAtMost, IsPrompt};

use crate::session::Session;
use crate::{Answerer, Ended, PIECE, Stop};
use outside::{Memory, Sink, Source};
use std::alloc::Global;

/// What is left of a script that was answered: who answered it, and how it ended.
#[derive(Drop)]
pub struct Answered<A: Answerer + Drop> {
    pub answerer: A,
    pub ended: Ended,
}

/// Answers the lines of a script of at most `limit` bytes, an unfinished last line among them. Of a longer script it
/// answers the lines that ended within the first `limit` bytes, and takes one byte more. `answer` answers one line by
/// the state, the line's number, counted from 1, and the line without its line feed.
pub fn answer_lines<
    A: Answerer + Drop,
    F: Fn(&mut A, u32, &[u8]) -> Result<Vec<u8>, Memory>,
    S: Source,
    K: Sink,
>(
    alloc: Global,
    answerer: A,
    answer: &F,
    script: &mut S,
    out: &mut K,
    limit: usize,
) -> Result<Answered<A>, Stop>
    requires room { limit + 2 < 2 ^ 32 }
    requires callable { F.IsAlwaysCallable answer.now }
    requires answers { AnswersBy A.text A.after (F.post answer.now) }

    // All answers were written, and the answerer is left as they left it.
    ensures text { IfSome (S.left script.old) (λ bytes. OnOk result (
        Appends (K.written out.old) (K.written out.new) (answers_from A.text A.after answerer 1 (lines_within limit bytes)))) }
    ensures state { IfSome (S.left script.old) (λ bytes. IfOk result (λ done. done.answerer ≡ state_after A.after answerer (lines_within limit bytes))) }
    ensures ended { IfSome (S.left script.old) (λ bytes. IfOk result (λ done. (done.ended ≡ Ended.TooLong) ↔ (limit < length bytes))) }
    ensures taken { OnOk result (Loses (limit + 1) (S.left script.old) (S.left script.new)) }

    // However it ends, it takes no more than one byte past the limit.
    ensures most { LosesAtMost (limit + 1) (S.left script.old) (S.left script.new) }

    // Else a front of them was: after a failed read, the answers to the lines that ended in what was taken.
    ensures front { IfSome (S.left script.old) (λ bytes. OnErr result (
        AppendsFront (K.written out.old) (K.written out.new) (answers_from A.text A.after answerer 1 (lines_within limit bytes)))) }
    ensures partial { IsErrOf result Stop.Read → Taken (S.left script.old) (S.left script.new) (λ front.
        Appends (K.written out.old) (K.written out.new) (text_left A.text A.after answerer 1 false front)) }
    ensures prompt { IsErrOf result Stop.Write → IsPrompt (text_left A.text A.after answerer 1 false)
        (S.left script.old) (S.left script.new) (K.written out.old) (K.written out.new) }

    ensures read { IsErrOf result Stop.Read → Rose (S.faults script.old) (S.faults script.new) }
    ensures write { IsErrOf result Stop.Write → Rose (K.faults out.old) (K.faults out.new) }
    ensures source_kept { ¬ IsErrOf result Stop.Read → S.faults script.new ≡ S.faults script.old }
    ensures sink_kept { ¬ IsErrOf result Stop.Write → K.faults out.new ≡ K.faults out.old }
    ensures source { S.faults script.old ≤ S.faults script.new }
    ensures sink { K.faults out.old ≤ K.faults out.new }
{
    let mut session = Session::new(alloc, answerer);
    let mut piece = [0u8; PIECE];
    let mut taken = 0usize;
    loop {
        let most = PIECE.min(limit + 1 - taken);
        let Ok(count) = script.read(&mut piece[..most]) else {
            return Err(Stop::Read);
        };
        if count == 0 {
            let answerer = session.finish(answer, out)?;
            return Ok(Answered {
                answerer,
                ended: Ended::Whole,
            });
        }
        let within = count.min(limit - taken);
        session.feed(answer, &piece[..within], out)?;
        taken += count;
        if limit < taken {
            let Session { answerer, .. } = session;
            return Ok(Answered {
                answerer,
                ended: Ended::TooLong,
            });
        }
    }
}
