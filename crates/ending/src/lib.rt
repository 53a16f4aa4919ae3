// The end of every call that is lent an answer buffer and a work area. specs/Ending.antt states what it leaves in both.
#![tactic(auto)]

ghost use Rattle.ending.specs.Finish.{Finishes};

// Keeps the first n words of the answer and clears those behind them; where there are not so many, all are cleared. The work area is
// cleared. Answers whether the n words were kept: none, as beside a refusal, always are.
pub fn finish(answer: &mut [u32], work: &mut [u32], n: usize) -> bool
    ensures { Finishes answer.old answer.new work.old work.new n result }
{
    buffers::clear(work);
    if n > answer.len() {
        buffers::clear(answer);
        return false;
    }
    buffers::clear(&mut answer[n..]);
    true
}
