// The sequence of an emoji record, by the number that the finder named. specs/Record.antt states what is answered.
#![tactic(auto)]

ghost use Rattle.std.specs.Prelude.{[], get_or};
ghost use Rattle.sections.specs.Laid.{Laid};
ghost use Rattle.table.specs.Layout.{the_table};
ghost use Rattle.firsts.specs.Firsts.{sequences_in};
ghost use Rattle.finder.specs.Match.{Sequences};
ghost use Rattle.emoji_record.specs.Record.{SequenceIs};

use sections::Sections;
use table::Span;
use table::lookup::counted;

// Where the sequence of a record of a section stands; a part of no words where there is no such record, and no Option: the finder names records that
// are there, and no caller has another case.
fn sequence_in(part: &[u32], number: usize) -> Span
    requires { Sequences part.now }
    ensures { SequenceIs part.now (get_or (sequences_in part.now) number []) result }
{
    let mut left = number;
    let mut at = 0;
    // by hand: the place of the words is the answer, and `Lists` hands out the words alone
    while at < part.len() {
        let sequence = counted(part, at);
        if left == 0 {
            return sequence;
        }
        left -= 1;
        at = sequence.to;
    }
    Span { from: 0, to: 0 }
}

// Where the sequence of an emoji record of the table stands among its words.
pub fn sequence(words: &[u32], ix: Sections, number: usize) -> Span
    requires { Laid words.now ix }
    ensures { SequenceIs words.now (get_or (the_table words.now).emoji number []) result }
{
    let s = ix.emoji;
    let found = sequence_in(s.of(words), number);
    Span {
        from: s.from + found.from,
        to: s.from + found.to,
    }
}
