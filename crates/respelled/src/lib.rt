// The groups in which a label could be respelled: those behind refusal 14. specs/Respelled.antt states what the call answers.
#![tactic(auto)]

ghost use Rattle.std.specs.Prelude.{◌≤◌, ◌≡◌, length};
ghost use Rattle.limits.specs.Limits.{least_work, most_input};
ghost use Rattle.table.specs.Layout.{the_table};
ghost use Rattle.sections.specs.Laid.{Laid};
ghost use Rattle.name.specs.Admission.{Admits};
ghost use Rattle.listing.specs.Filling.{Holds};
ghost use Rattle.respelled.specs.Respelled.{respelled_in};
ghost use Rattle.respelled.specs.Promise.{respelled_number, respelled_place, RespelledCalls};
ghost use Rattle.respelled.specs.declared.RespelledError.TheVariants.{Refused};
ghost use Rattle.respelled.specs.Steps.{Passes, TextStands, LabelListed, RespelledJudged};

use answers::Refusal;
use ending::finish;
use group_list::list_flags;
use label::cells::text_alone;
use label_call::judge_input;
use limits::MOST_WORKED;
use lookalike::respellings;
use memo::MEMO;
use name::admit::admit;
use normal_cells::normalise;
use scanning::scan;
use sections::Sections;
use unpaired::KNOWN_WORDS;
use unpaired::index::index_pairs;

// Why the call lists no groups.
#[derive(Clone, Copy)]
pub enum RespelledError {
    Refused(Refusal),
    NoRoom,
}

impl RespelledError {
    // The number of the refusal.
    pub fn number(self) -> u32
        ensures { result ≡ respelled_number self }
    {
        match self {
            RespelledError::Refused(f) => f.number(),
            RespelledError::NoRoom => 33,
        }
    }

    // Its place.
    pub fn place(self) -> usize
        ensures { result ≡ respelled_place self }
    {
        match self {
            RespelledError::Refused(f) => f.place(),
            RespelledError::NoRoom => 0,
        }
    }
}

impl From<Refusal> for RespelledError {
    ghost from_gives = { λ f e. e ≡ Refused f };

    fn from(f: Refusal) -> RespelledError {
        RespelledError::Refused(f)
    }
}

// Lists the groups in which a text could be respelled: none without a confused character.
fn list_text(words: &[u32], ix: Sections, text: &[u32], list: &mut [u32]) -> usize
    requires { Laid words.now ix }
    ensures { Holds (respelled_in (the_table words.now) text.now) list.old list.new result }
{
    let mut memo = [0; MEMO];
    let mut flags = [true; 256];
    let seen = respellings(words, ix, text, &mut memo[0..MEMO], &mut flags);
    if !seen {
        return 0;
    }
    list_flags(list, &flags)
}

// Puts the text of a label that passes 5 and 7 into the second half of the work area. Answers its length.
fn label_text(words: &[u32], ix: Sections, label: &[u32], w: &mut [u32]) -> usize
    requires laid { Laid words.now ix }
    requires least_work_in_bounds { (least_work ≤ length w.old) × (length label.now ≤ most_input) }
    requires passes { Passes (the_table words.now) label.now }
    ensures { TextStands (the_table words.now) label.now w.old w.new result }
{
    let scanned = scan(words, ix, label, w);
    match scanned {
        Err(_) => 0,
        Ok(tally) => {
            let mut unpaired = [0u32; KNOWN_WORDS];
            index_pairs(words, ix, &mut unpaired);
            let n = normalise(words, ix, &mut unpaired, w, tally.worked);
            text_alone(w, n)
        }
    }
}

// The groups of a label that is refused as 14.
fn list_refused(
    words: &[u32],
    ix: Sections,
    label: &[u32],
    list: &mut [u32],
    w: &mut [u32],
) -> usize
    requires laid { Laid words.now ix }
    requires least_work_in_bounds { (least_work ≤ length w.old) × (length label.now ≤ most_input) }
    requires passes { Passes (the_table words.now) label.now }
    ensures { LabelListed (the_table words.now) label.now list.old list.new w.old w.new result }
{
    let m = label_text(words, ix, label, w);
    let end = MOST_WORKED + m;
    list_text(words, ix, &w[MOST_WORKED..end], list)
}

// The label call's refusals from 5 to 13 and 16, then the groups: none where it accepts.
fn list_label(
    words: &[u32],
    ix: Sections,
    label: &[u32],
    list: &mut [u32],
    work: &mut [u32],
) -> Result<usize, RespelledError>
    requires { Admits words.now label.now (length work.old) ix }
    ensures { RespelledJudged words.now label.now list.old list.new work.old work.new result }
{
    let mut room = [0u32; 0];
    let judged = judge_input(0, words, label, &mut room, work);
    match judged {
        Ok(_) => Ok(0),
        Err(f) => {
            let number = f.number();
            if number != 14 {
                return Err(RespelledError::Refused(f));
            }
            let entries = list_refused(words, ix, label, list, work);
            Ok(entries)
        }
    }
}

// The call before 33: the groups are listed as far as they fit.
fn respelled_judged(
    input: &[u32],
    words: &[u32],
    list: &mut [u32],
    work: &mut [u32],
) -> Result<usize, RespelledError>
    ensures { RespelledJudged words.now input.now list.old list.new work.old work.new result }
{
    let ix = admit(words, input, work.len())?;
    list_label(words, ix, input, list, work)
}

// Lists the groups in which a label could be respelled, by their numbers from 0. The words of the list behind them, and the work area, are
// cleared; a refusal clears both. A list of 256 words has room for all groups.
pub fn respelled(
    input: &[u32],
    words: &[u32],
    list: &mut [u32],
    work: &mut [u32],
) -> Result<usize, RespelledError>
    ensures { RespelledCalls words.now input.now list.old list.new work.old work.new result }
{
    let judged = respelled_judged(input, words, list, work);
    let entries = judged.unwrap_or(0);
    if !finish(list, work, entries) {
        return Err(RespelledError::NoRoom);
    }
    judged
}
