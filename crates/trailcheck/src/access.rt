//! How the rows of an entry may be read.

ghost use Rattle.std.specs.Prelude.{◌≡◌, ◌==◌, option_map};
ghost use Rattle.std.specs.List.{list_any};
ghost use Rattle.trailcheck.specs.Admissible as spec;
ghost use Rattle.trailcheck.specs.View.{setting_of};

use crate::setting::Setting;
use expr::{Access, BoundExpr, ColumnId, MovableExpr};
use memory::Heap;
use predicates::numbered;
use value::Comparison;

/// The condition of that number, from 1, if there is one.
pub fn condition_at<A: Heap>(setting: &Setting<A>, number: u64) -> Option<&MovableExpr<A>>
    ensures { option_map (λ e. e.now) result ≡ spec.condition_at (setting_of setting.now) number }
{
    numbered(setting.conditions.as_slice(), number)
}

// True where the column's number is one of those.
fn is_number_among(numbers: &[u64], column: u64) -> bool
    ensures { result ≡ list_any (λ c. c == column) numbers.now }
{
    numbers.iter().any(|c| *c == column)
}

// True where the entry has an index on the column of that number.
fn is_indexed<A: Heap>(setting: &Setting<A>, entry: usize, column: u64) -> bool
    ensures { result ≡ spec.is_indexed (setting_of setting.now) entry column }
{
    match setting.indexed.as_slice().get(entry) {
        Some(numbers) => is_number_among(numbers.as_slice(), column),
        None => false,
    }
}

// True for = < <= > >=.
fn is_bounding(operator: Comparison) -> bool
    ensures { result ≡ spec.is_bounding operator }
{
    !matches!(operator, Comparison::NotEqual)
}

// True where it is the column of that number, from 1, of the entry.
fn is_numbered(entry: usize, column: u64, id: ColumnId) -> bool
    ensures { result ≡ spec.is_numbered entry column id }
{
    id.entry == entry && column != 0 && id.column as u64 == column - 1
}

/// True where the condition compares that column of the entry, counted from 1, with a literal, either way round.
pub fn bounds<A: Heap>(entry: usize, column: u64, condition: &MovableExpr<A>) -> bool
    ensures { result ≡ spec.bounds entry column condition.now }
{
    match condition.expression() {
        BoundExpr::Comparison {
            operator,
            left,
            right,
            ..
        } => match &**left {
            BoundExpr::Column(id) => match &**right {
                BoundExpr::Literal(_) => is_bounding(*operator) && is_numbered(entry, column, *id),
                _ => false,
            },
            BoundExpr::Literal(_) => match &**right {
                BoundExpr::Column(id) => is_bounding(*operator) && is_numbered(entry, column, *id),
                _ => false,
            },
            _ => false,
        },
        _ => false,
    }
}

/// True where the rows of the entry may be read so.
pub(crate) fn is_allowed_access<A: Heap>(setting: &Setting<A>, entry: usize, access: Access) -> bool
    ensures { result ≡ spec.is_allowed_access (setting_of setting.now) entry access }
{
    match access {
        Access::Full => true,
        Access::Index { column } => is_indexed(setting, entry, column),
        Access::Range { column, bound } => {
            if !is_indexed(setting, entry, column) {
                return false;
            }
            match condition_at(setting, bound) {
                Some(condition) => bounds(entry, column, condition),
                None => false,
            }
        }
    }
}
