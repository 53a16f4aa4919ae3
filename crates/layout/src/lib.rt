// The layout pass: finds the fourteen sections among the words of a table and sees that each of them is well formed.
#![tactic(auto)]

use section_places::places;
use sections::Sections;
use seen_parts::{classes_in, excluded_in, firsts_in, groups_in, heads_in, pairs_in, wholes_in};
use seen_sections::{Others, Sets, all_fit, found_of};

// 02, Item 11: "allows 131,074 words"
const MOST_WORDS: usize = 131074;

// "Items per record: mapped and emoji 1 to 32, decomposition 1 to 4"
const MOST_ITEMS: usize = 32;

const MOST_PARTS: usize = 4;

ghost use Rattle.sections.specs.Laid.{AllFit, LaidOut};
ghost use Rattle.layout.specs.Seeing.{SetsFound, OthersFound};

// What is seen of the sections of pairs.
fn sets_found(words: &[u32], ix: Sections) -> Sets
    requires { AllFit words.now ix }
    ensures { SetsFound words.now ix result }
{
    let valid = pairs_in(words, ix.valid);
    let ignored = pairs_in(words, ix.ignored);
    let fenced = pairs_in(words, ix.fenced);
    let marks = pairs_in(words, ix.marks);
    let nsm = pairs_in(words, ix.nsm);
    let escape = pairs_in(words, ix.escape);
    let quick = pairs_in(words, ix.quick);
    Sets {
        valid,
        ignored,
        fenced,
        marks,
        nsm,
        escape,
        quick,
    }
}

// What is seen of the others.
fn others_found(words: &[u32], ix: Sections) -> Others
    requires { AllFit words.now ix }
    ensures { OthersFound words.now ix result }
{
    let mapped = heads_in(words, ix.mapped, MOST_ITEMS);
    let decompositions = heads_in(words, ix.decompositions, MOST_PARTS);
    let emoji = firsts_in(words, ix.emoji);
    let exclusions = excluded_in(words, ix.exclusions);
    let classes = classes_in(words, ix.classes);
    let groups = groups_in(words, ix.groups);
    let wholes = wholes_in(words, ix.wholes);
    Others {
        mapped,
        decompositions,
        emoji,
        exclusions,
        classes,
        groups,
        wholes,
    }
}

// The places of the sections and what is found of them, or a fault where the words are not a table.
pub fn layout(words: &[u32]) -> Option<Sections>
    ensures { LaidOut words.now result }
{
    if words.len() > MOST_WORDS {
        return None;
    }
    let ix = places(words);
    let end = ix.quick.to;
    if end != words.len() {
        return None;
    }
    let sets = sets_found(words, ix);
    let others = others_found(words, ix);
    if all_fit(sets, others) {
        return Some(found_of(ix, sets, others));
    }
    None
}
