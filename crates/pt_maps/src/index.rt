ghost use Rattle.std.specs.Prelude.{◌≡◌, ℕ, ◌≤◌, ◌++◌, ◌∷◌, [], IfSome, IfNone, None, OnOk, IsTrue, false};
ghost use Rattle.std.specs.Ordering.{nat_cmp};
ghost use Rattle.std.specs.BTreeMap.{get};
ghost use Rattle.pt_maps.specs.Rule.{source, holds, is_past_end};
ghost use Rattle.pt_maps.specs.Refusal.{overlaps, AreAccepted};
ghost use Rattle.pt_maps.specs.Translated.{rule_of};
ghost use Rattle.pt_maps.specs.Index.{IsIndexOf, IsNearest, IsNearestRule};

use crate::rule::{Direction, IdRule};
use std::alloc::AllocError;
use std::collections::BTreeMap;

/// The places of rules by the first ids of their source ranges in one direction.
pub(crate) type Starts = BTreeMap<u32, usize>;

/// The place of the last start up to an id.
fn nearest(starts: &Starts, id: u32) -> Option<usize>
    ensures none { IfNone result ((start : ℕ) → start ≤ id → get nat_cmp starts.now start ≡ None) }
    ensures some { IfSome result (IsNearest starts.now id) }
{
    let (_, place) = starts.range(..=id).next_back()?;
    Some(*place)
}

/// The rule of the last start up to an id.
fn nearest_rule(direction: Direction, rules: &[IdRule], starts: &Starts, id: u32) -> Option<IdRule>
    requires { IsIndexOf direction rules.now starts.now }
    ensures none { IfNone result ((start : ℕ) → start ≤ id → get nat_cmp starts.now start ≡ None) }
    ensures some { IfSome result (IsNearestRule rules.now starts.now id) }
{
    let place = nearest(starts, id)?;
    rules.get(place).copied()
}

/// The rule whose source range holds an id.
pub(crate) fn rule_of(
    direction: Direction,
    rules: &[IdRule],
    starts: &Starts,
    id: u32,
) -> Option<IdRule>
    requires indexed { IsIndexOf direction rules.now starts.now }
    requires accepted { AreAccepted rules.now }
    ensures rule { result ≡ rule_of direction rules.now id }
    ensures held { IfSome result (λ rule. IsTrue (holds (source direction rule) id)) }
    ensures fits { IfSome result (λ rule. is_past_end rule ≡ false) }
{
    let rule = nearest_rule(direction, rules, starts, id)?;
    if rule.source(direction).holds(id) {
        Some(rule)
    } else {
        None
    }
}

/// Whether a rule has a source id that one of these rules has.
pub(crate) fn meets_one(
    direction: Direction,
    rules: &[IdRule],
    starts: &Starts,
    rule: IdRule,
) -> bool
    requires indexed { IsIndexOf direction rules.now starts.now }
    requires accepted { AreAccepted rules.now }
    ensures { result ≡ overlaps direction rules.now rule }
{
    let range = rule.source(direction);
    match nearest_rule(direction, rules, starts, range.last()) {
        Some(near) => range.meets(near.source(direction)),
        None => false,
    }
}

/// Puts in the start of the rule that follows these.
pub(crate) fn put_start(
    direction: Direction,
    rules: &[IdRule],
    starts: &mut Starts,
    rule: IdRule,
) -> Result<(), AllocError>
    requires indexed { IsIndexOf direction rules.now starts.old }
    requires clear { overlaps direction rules.now rule ≡ false }
    ensures { OnOk result (IsIndexOf direction (rules.now ++ rule ∷ []) starts.new) }
{
    let range = rule.source(direction);
    if range.count > 0 {
        starts.insert(range.start, rules.len())?;
    }
    Ok(())
}
