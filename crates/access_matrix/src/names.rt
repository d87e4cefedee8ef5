//! The names of roles and tables of two catalogues.

ghost use Rattle.std.specs.Prelude.{◌≡◌, ◌++◌, IfOk, OnOk, filter, map, not};
ghost use Rattle.access_matrix.specs.Changes as spec;

use catalog::Catalog;
use memory::{Heap, Items};
use std::alloc::AllocError;

type Names<'s, A> = Result<Items<&'s str, A>, AllocError>;

/// True where a name is one of some names.
pub(crate) fn is_among(name: &str, names: &[&str]) -> bool
    ensures { result ≡ spec.is_among name.now (map (λ n. n.now) names.now) }
{
    for other in names {
        if name == *other {
            return true;
        }
    }
    false
}

/// Adds the names that are not among others.
pub(crate) fn push_absent<'s, A: Heap>(
    all: &mut Items<&'s str, A>,
    names: &[&'s str],
    others: &[&str],
) -> Result<(), AllocError>
    ensures { OnOk result (map (λ n. n.now) all.new ≡ map (λ n. n.now) all.old ++ filter (λ name. not (spec.is_among name (map (λ n. n.now) others.now))) (map (λ n. n.now) names.now)) }
{
    for name in names {
        if !is_among(name, others) {
            all.push(*name)?;
        }
    }
    Ok(())
}

/// The names of the roles, in order of creation.
pub(crate) fn role_names<A: Heap>(alloc: A, catalog: &Catalog<A>) -> Names<'_, A>
    ensures { IfOk result (λ names. map (λ n. n.now) names ≡ map (λ role. role.name) catalog.now.roles) }
{
    let mut names = Items::new(alloc);
    for index in 0..catalog.roles() {
        names.push(catalog.role_name(index).unwrap())?;
    }
    Ok(names)
}

// The names of the tables, in order of creation.
fn table_names<A: Heap>(alloc: A, catalog: &Catalog<A>) -> Names<'_, A>
    ensures { IfOk result (λ names. map (λ n. n.now) names ≡ map (λ t. t.name) catalog.now.tables) }
{
    let mut names = Items::new(alloc);
    for index in 0..catalog.tables() {
        names.push(catalog.table_at(index).unwrap().name())?;
    }
    Ok(names)
}

/// The names of the roles of either catalogue.
pub(crate) fn roles_of_either<'s, A: Heap>(
    alloc: A,
    old: &'s Catalog<A>,
    new: &'s Catalog<A>,
) -> Names<'s, A>
    ensures { IfOk result (λ names. map (λ n. n.now) names ≡ spec.either (map (λ role. role.name) old.now.roles) (map (λ role. role.name) new.now.roles)) }
{
    let mut all = role_names(alloc, old)?;
    let first = role_names(alloc, old)?;
    let second = role_names(alloc, new)?;
    push_absent(&mut all, second.as_slice(), first.as_slice())?;
    Ok(all)
}

/// The names of the tables of either catalogue.
pub(crate) fn tables_of_either<'s, A: Heap>(
    alloc: A,
    old: &'s Catalog<A>,
    new: &'s Catalog<A>,
) -> Names<'s, A>
    ensures { IfOk result (λ names. map (λ n. n.now) names ≡ spec.either (map (λ t. t.name) old.now.tables) (map (λ t. t.name) new.now.tables)) }
{
    let mut all = table_names(alloc, old)?;
    let first = table_names(alloc, old)?;
    let second = table_names(alloc, new)?;
    push_absent(&mut all, second.as_slice(), first.as_slice())?;
    Ok(all)
}
