// The labels of a name, and their places in the answer buffer.
ghost use Rattle.std.specs.Prelude.{◌≤◌, [], length};
ghost use Rattle.limits.specs.Limits.{most_worked};
ghost use Rattle.name.specs.Parts.{most_answer, LabelEnds, Put};

// Where the label that starts at `at` ends: at the first stop, or at the end of the name.
pub fn label_end(input: &[u32], at: usize) -> usize
    requires { at ≤ length input.now }
    ensures { LabelEnds input.now at result }
{
    match input[at..].iter().position(|&c| c == 0x2E) {
        Some(n) => at + n,
        None => input.len(),
    }
}

// Writes a label into the part of the answer behind the last stop, if it fits: `at` words stand before it, and a stop goes between unless it
// is the first. Answers the length with it, whether it fits or not. The bound on `at` only keeps the sum within a machine word.
pub fn put_label(answer: &mut [u32], at: usize, first: bool, label: &[u32]) -> usize
    requires { (at ≤ most_answer) × (length label.now ≤ most_worked) }
    ensures { Put answer.old answer.new at first label.now result }
{
    let from = after_stop(answer, at, first);
    let end = from + label.len();
    if end <= answer.len() {
        buffers::copy_into(&mut answer[from..], label);
    }
    end
}

// Where the next label starts: behind a stop, which is written if there is room, unless it is the first.
fn after_stop(answer: &mut [u32], at: usize, first: bool) -> usize
    requires { at ≤ most_answer }
    ensures { Put answer.old answer.new at first [] result }
{
    if first {
        return at;
    }
    if at < answer.len() {
        answer[at] = 0x2E;
    }
    at + 1
}
