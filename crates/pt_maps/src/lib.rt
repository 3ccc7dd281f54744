//! How ids, and names of extended attributes, are translated between a guest and its host.
#![tactic(auto)]

mod error;
mod id_map;
mod id_rules;
mod index;
mod laws;
mod range;
mod rule;
mod xattr_map;
mod xattr_rule;

pub use error::MapError;
pub use id_map::IdMap;
pub use id_rules::IdRules;
pub use laws::{rules_are_unambiguous, terminated_rules_meet_all};
pub use rule::IdRule;
pub use xattr_map::{AppliedRule, XattrMap, names_of_list};
pub use xattr_rule::{RuleKind, RuleScope, XattrRule};
