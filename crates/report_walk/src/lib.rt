// The lines of an accepted name, label by label and token by token.
#![tactic(auto)]

ghost use Rattle.std.specs.Prelude.{◌≤◌, length};
ghost use Rattle.lists.specs.Laws.{Every};
ghost use Rattle.limits.specs.Limits.{most_input, least_work};
ghost use Rattle.sections.specs.Laid.{Laid};
ghost use Rattle.table.specs.Layout.{the_table};
ghost use Rattle.unpaired.specs.Unpaired.{Unpaired};
ghost use Rattle.name.specs.Name.{labels_of};
ghost use Rattle.byte_sink.specs.Sinks.{Adds};
ghost use Rattle.token_walk.specs.Walk.{Walkable};
ghost use Rattle.report_text.specs.Report.{label_lines, report};
ghost use Rattle.report_walk.specs.Reportable.{nothing, Reportable};

use byte_sink::Sink;
use layout::layout;
use report_lines::put_line;
use sections::Sections;
use token_walk::next_token;
use unpaired::KNOWN_WORDS;
use unpaired::index::index_pairs;

// The lines of a label that starts at `start` of the name. The words of the work area are open.
fn report_label(
    words: &[u32],
    ix: Sections,
    label: &[u32],
    start: usize,
    unpaired: &mut [u32],
    out: &mut [u8],
    w: &mut [u32],
    sink: Sink,
) -> Sink
    requires laid { Laid words.now ix }
    requires unpaired { Unpaired (the_table words.now) unpaired.old }
    requires least_work_in_bounds { (least_work ≤ length w.old) × (length label.now ≤ most_input) × (start ≤ most_input) }
    requires walkable { Walkable (the_table words.now) label.now }
    ensures adds { Adds out.old out.new (label_lines (the_table words.now) start label.now) sink result }
    ensures unpaired_2 { Unpaired (the_table words.now) unpaired.new }
{
    let mut r = sink;
    let mut i = 0;
    // by hand: a token's length is its own, and the place goes on by it; an iterator would hold the work area, which `put_line` reads
    while i < label.len() {
        let token = next_token(words, ix, &label[i..], unpaired, w);
        let from = start + i;
        let taken = token.extent.end;
        r = put_line(
            words,
            ix,
            token.extent.emoji.is_some(),
            from,
            from + taken,
            &w[..token.length],
            out,
            r,
        );
        i += taken;
    }
    r
}

// The lines of the labels of a name that is not empty.
fn report_labels(words: &[u32], ix: Sections, name: &[u32], out: &mut [u8], w: &mut [u32]) -> Sink
    requires laid { Laid words.now ix }
    requires least_work_in_bounds { (least_work ≤ length w.old) × (length name.now ≤ most_input) × (1 ≤ length name.now) }
    requires every { Every (Walkable (the_table words.now)) (labels_of name.now) }
    ensures { Adds out.old out.new (report (the_table words.now) name.now) nothing result }
{
    let mut unpaired = [0u32; KNOWN_WORDS];
    index_pairs(words, ix, &mut unpaired);
    let mut sink = Sink { at: Some(0) };
    let mut at = 0;
    for label in name.split(|&c| c == 0x2E) {
        sink = report_label(words, ix, label, at, &mut unpaired, out, w, sink);
        at += label.len() + 1;
    }
    sink
}

// The report of an accepted name that is not empty, as far as there is room.
pub fn write_report(words: &[u32], name: &[u32], out: &mut [u8], w: &mut [u32]) -> Sink
    requires { Reportable words.now name.now (length w.old) }
    ensures { Adds out.old out.new (report (the_table words.now) name.now) nothing result }
{
    match layout(words) {
        Some(ix) => report_labels(words, ix, name, out, w),
        None => Sink { at: None },
    }
}
