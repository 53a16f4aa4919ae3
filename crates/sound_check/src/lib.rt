// The soundness check of a name table: the rules, asked in their order.
#![tactic(auto)]

ghost use Rattle.std.specs.Prelude.{◌≡◌, true};
ghost use Rattle.answers.specs.Values.{broken_rule};
ghost use Rattle.sections.specs.Laid.{Laid};
ghost use Rattle.table.specs.Layout.{the_table};
ghost use Rattle.soundness.specs.Scalars.{rule1};
ghost use Rattle.soundness.specs.Soundness.{lowest_broken, soundness_of};
ghost use Rattle.sound_check.specs.Order.{lowest_first, lowest_last, lowest_of};

use answers::Rule;
use layout::layout;
use quick_found::finds;
use rule_1::rule1;
use rule_2::rule2;
use rule_3::rule3;
use rule_4::rule4;
use rule_5::rule5;
use rule_6::rule6;
use rule_7::rule7;
use rule_8::rule8;
use sections::Sections;

// The lowest of rules 1 to 5 that a table breaks.
fn first_rules(words: &[u32], ix: Sections) -> Result<(), Rule>
    requires { Laid words.now ix }
    ensures { broken_rule result ≡ lowest_first (the_table words.now) }
{
    if !rule1::keeps_rule1(words, ix) {
        return Err(Rule::Scalars);
    }
    if !rule2::keeps_rule2(words, ix) {
        return Err(Rule::ValidSet);
    }
    if !rule3::keeps_rule3(words, ix) {
        return Err(Rule::ValidItems);
    }
    if !rule4::keeps_rule4(words, ix) {
        return Err(Rule::Sequences);
    }
    if !rule5::keeps_rule5(words, ix) {
        return Err(Rule::SequencesApart);
    }
    Ok(())
}

// The lowest of the others. Rule 1 holds.
fn last_rules(words: &[u32], ix: Sections) -> Result<(), Rule>
    requires laid { Laid words.now ix }
    requires words_value { rule1 (the_table words.now) ≡ true }
    ensures { broken_rule result ≡ lowest_last (the_table words.now) }
{
    if !rule6::keeps_rule6(words, ix) {
        return Err(Rule::Stable);
    }
    if !rule7::keeps_rule7(words, ix) {
        return Err(Rule::DistinctPairs);
    }
    if !rule8::keeps_rule8(words, ix) {
        return Err(Rule::QuickCheck);
    }
    Ok(())
}

// The lowest of rules 6 to 8, or of rules 1 to 5, that a table breaks. A flag and no closure: in one function that both calls share, the arrays of
// rules 2 and 6 share their place on the stack, which has a limit.
fn some_rules(words: &[u32], ix: Sections, later: bool) -> Result<(), Rule>
    requires laid { Laid words.now ix }
    requires words_value { later ≡ true → rule1 (the_table words.now) ≡ true }
    ensures { broken_rule result ≡ lowest_of later (the_table words.now) }
{
    if later {
        return last_rules(words, ix);
    }
    first_rules(words, ix)
}

// The lowest rule that a table breaks. Rules 6 to 8 are first looked for by a few walks over the sections, which may miss them: only then each
// is asked by itself.
fn rules(words: &[u32], ix: Sections) -> Result<(), Rule>
    requires { Laid words.now ix }
    ensures { broken_rule result ≡ lowest_broken (the_table words.now) }
{
    some_rules(words, ix, false)?;
    if finds(words, ix) {
        return Ok(());
    }
    some_rules(words, ix, true)
}

// The soundness check: the lowest rule that the table breaks, the layout first. It writes nothing.
pub fn soundness(words: &[u32]) -> Result<(), Rule>
    ensures { broken_rule result ≡ soundness_of words.now }
{
    match layout(words) {
        None => Err(Rule::Layout),
        Some(ix) => rules(words, ix),
    }
}
