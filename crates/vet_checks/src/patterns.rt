//! The patterns of rules.
ghost use Rattle.std.specs.Prelude.{◌≡◌, IfSome};
ghost use Rattle.regex.specs.Strings.{regex_source};
ghost use Rattle.vet_checks.specs.Patterns.{regex_of};

use crate::check::Tree;
use crate::pattern::Pattern;
use crate::rule_check::RuleCheck;

// A pattern of the rules that was read from the source, if they have one.
pub(crate) fn pattern_of_rules<'r>(rules: &'r [RuleCheck], source: &str) -> Option<&'r Pattern>
    ensures { IfSome result (λ p. regex_source (regex_of p.now) ≡ source.now) }
{
    for rule in rules {
        if let Some(pattern) = pattern_in(&rule.check.tree, source) {
            return Some(pattern);
        }
    }
    None
}

// The same of a tree.
#[cycle(search)]
fn pattern_in<'r>(tree: &'r Tree, source: &str) -> Option<&'r Pattern>
    ensures { IfSome result (λ p. regex_source (regex_of p.now) ≡ source.now) }
{
    match tree {
        Tree::Leaf(test) => test.pattern_of(source),
        Tree::Pair(_, _, left, right) => {
            if let Some(pattern) = pattern_in(left, source) {
                return Some(pattern);
            }
            pattern_in(right, source)
        }
        Tree::Row(_, _, parts) => pattern_among(parts, source),
        Tree::Not(_, inner) | Tree::Named(_, inner) | Tree::Members(_, _, _, inner) => {
            pattern_in(inner, source)
        }
    }
}

#[cycle(search)]
fn pattern_among<'r>(parts: &'r [Tree], source: &str) -> Option<&'r Pattern>
    ensures { IfSome result (λ p. regex_source (regex_of p.now) ≡ source.now) }
{
    for part in parts {
        if let Some(pattern) = pattern_in(part, source) {
            return Some(pattern);
        }
    }
    None
}
