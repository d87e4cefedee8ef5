//! Laws of groups.

ghost use Rattle.std.specs.Prelude.{◌≡◌, List, [], ◌∷◌, ◌++◌, map, IsPermutation};
ghost use Rattle.std.specs.List.{flat_map, IsDistinct};
ghost use Rattle.expr.specs.declared.bound.ColumnId as id;
ghost use Rattle.expr.specs.Aggregates.{AggregateCall};
ghost use Rattle.groups.specs.Members.{Member};
ghost use Rattle.groups.specs.Groups.{groups_of, same_key};
ghost use Rattle.groups.specs.GroupRow.{group_rows};
ghost use Rattle.groups.specs.Running.{finished_rows, put_running, running_groups};
ghost use Rattle.groups.specs.ClassValues.{AggregatesOfClasses, CountsEachRow};

/// The order of the members makes no difference to the rows of the groups.
#[tactic(auto, using(crate::proofs::SameGroups::same_rows_of_groups))]
pub fn law_order_of_members()
    ensures { (columns : List id.ColumnId) (calls : List AggregateCall) (one other : List Member) → IsPermutation one other → group_rows columns calls one ≡ group_rows columns calls other }
{}

/// No two groups have the same key, where nulls are the same.
#[tactic(auto, using(crate::proofs::Parts::keys_differ))]
pub fn law_groups_differ()
    ensures { (columns : List id.ColumnId) (members : List Member) → IsDistinct same_key (map (λ g. g.key) (groups_of columns members)) }
{}

/// Each member is in one group: the members of all groups together are the members, each as often.
#[tactic(auto, using(crate::proofs::Parts::no_member_lost))]
pub fn law_no_member_lost()
    ensures { (columns : List id.ColumnId) (members : List Member) → IsPermutation (flat_map (λ g. g.members) (groups_of columns members)) (map (λ m. m.arguments) members) }
{}

/// One more member, whose key is empty without GROUP BY, put into the running totals of the groups of some members gives
/// those of the groups of all of them. When all members are in, the totals are finished as the rows of their groups.
#[tactic(auto, using(crate::proofs::ClassLaws::totals_more, crate::proofs::ClassLaws::rows_finished))]
pub fn law_running_totals()
    ensures more { (columns : List id.ColumnId) (calls : List AggregateCall) (members : List Member) (m : Member) → (columns ≡ [] → m.key ≡ []) → put_running calls m (running_groups calls (groups_of columns members)) ≡ running_groups calls (groups_of columns (members ++ m ∷ [])) }
    ensures finished { (columns : List id.ColumnId) (calls : List AggregateCall) (members : List Member) → finished_rows calls (running_groups calls (groups_of columns members)) ≡ group_rows columns calls members }
{}

/// In the row of a group each aggregate is the aggregate of its argument's values on the rows of the class: those that have
/// the group's key, or all rows without GROUP BY. `count(*)` counts each of them.
pub fn law_aggregates_of_classes()
    ensures aggregates { AggregatesOfClasses }
    ensures count { CountsEachRow }
{}
