// Rule 1: every codepoint named is a Unicode scalar value.

ghost use Rattle.std.specs.Prelude.{◌≡◌};
ghost use Rattle.table.specs.Layout.{the_table};
ghost use Rattle.sections.specs.Laid.{Laid};
ghost use Rattle.soundness.specs.Scalars.{rule1};
ghost use Rattle.sound_parts.specs.Parts.{ranges_scalar, records_scalar, others_scalar};

use scalar_parts::{scalar_groups_of, scalar_headed_of, scalar_sequences_of, scalar_wholes_of};
use scalar_runs::{scalar_classes, scalar_excluded, scalar_pairs_of};
use sections::Sections;

// The sections of pairs.
fn scalar_ranges(words: &[u32], ix: Sections) -> bool
    requires { Laid words.now ix }
    ensures { result ≡ ranges_scalar (the_table words.now) }
{
    if !scalar_pairs_of(words, ix.valid) {
        return false;
    }
    if !scalar_pairs_of(words, ix.ignored) {
        return false;
    }
    if !scalar_pairs_of(words, ix.fenced) {
        return false;
    }
    if !scalar_pairs_of(words, ix.marks) {
        return false;
    }
    scalar_pairs_of(words, ix.nsm)
}

// The sections of records.
fn scalar_records(words: &[u32], ix: Sections) -> bool
    requires { Laid words.now ix }
    ensures { result ≡ records_scalar (the_table words.now) }
{
    if !scalar_headed_of(words, ix.mapped) {
        return false;
    }
    if !scalar_headed_of(words, ix.decompositions) {
        return false;
    }
    if !scalar_sequences_of(words, ix.emoji) {
        return false;
    }
    scalar_excluded(words, ix.exclusions)
}

// The other sections.
fn scalar_others(words: &[u32], ix: Sections) -> bool
    requires { Laid words.now ix }
    ensures { result ≡ others_scalar (the_table words.now) }
{
    if !scalar_classes(words, ix.classes) {
        return false;
    }
    if !scalar_groups_of(words, ix.groups) {
        return false;
    }
    scalar_wholes_of(words, ix.wholes)
}

// Rule 1: every codepoint named, those inside pairs and triples included, is a Unicode scalar value.
pub fn keeps_rule1(words: &[u32], ix: Sections) -> bool
    requires { Laid words.now ix }
    ensures { result ≡ rule1 (the_table words.now) }
{
    if !scalar_ranges(words, ix) {
        return false;
    }
    if !scalar_records(words, ix) {
        return false;
    }
    if !scalar_others(words, ix) {
        return false;
    }
    if !scalar_pairs_of(words, ix.escape) {
        return false;
    }
    scalar_pairs_of(words, ix.quick)
}
