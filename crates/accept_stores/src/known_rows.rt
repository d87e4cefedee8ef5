//! What explains texts over what is known of the rows that roles see, beside `explain`, which knows nothing; and that nothing is found
//! out twice.

use fixtures::{FixtureError, Known, explained, load, sales, store_of};
use memory::Failure;
use metered::Metered;
use std::alloc::{AllocError, Global};
use std::process::Abort;
use std::test::Fail;
use store::Store;

// Roles with policies, without, and without a right; texts that name other columns of the same tables.
static ASKED: [(&str, &str); 9] = [
    ("alice", "SELECT id FROM deal WHERE region = 1"),
    ("alice", "SELECT id FROM deal WHERE amount > 60"),
    ("bob", "SELECT id FROM deal WHERE region = 1"),
    (
        "alice",
        "SELECT d.id FROM deal d, region r WHERE d.region = r.id AND d.amount > 1",
    ),
    ("audit", "SELECT id FROM deal WHERE region = 1"),
    ("guest", "SELECT id FROM deal WHERE id = 1"),
    ("guest", "SELECT id FROM deal WHERE region = 1"),
    (
        "bob",
        "SELECT d.id FROM deal d LEFT JOIN region r ON d.region = r.id AND r.id = d.parts",
    ),
    ("root", "SELECT id FROM deal WHERE parts > 1"),
];

// The same is said over what is known and by `explain`.
fn compare(
    rt: &(impl Abort + AllocGlobal),
    store: &Store<Global>,
    known: &mut Known<'_, Global>,
    role: &str,
    text: &str,
) -> Result<(), AllocError> {
    let (status, said) = known.explained(rt.alloc(), role, text);
    let (alone, due) = explained(rt.alloc(), store, role, text);
    assert_eq!(rt; status, alone, "{role}: {text}");
    assert_eq!(rt;
        said.inner.as_slice(),
        due.inner.as_slice(),
        "{role}: {text}"
    );
    Ok(())
}

#[test]
fn what_is_known_changes_no_plan(rt: HostRuntime) -> Result<(), Fail> {
    let store = sales(rt.alloc())?;
    let mut known = Known::new(rt.alloc(), &store);
    for (role, text) in ASKED.as_slice() {
        compare(&rt, &store, &mut known, *role, *text)?;
    }
    for (role, text) in ASKED.as_slice() {
        compare(&rt, &store, &mut known, *role, *text)?;
    }
    Ok(())
}

// So many roles, each of which owns a row of a table.
const ROLES: u64 = 70;

fn owners(alloc: Global) -> Result<Box<Store<Global>>, Failure<FixtureError>> {
    let mut schema = String::from_str(
        alloc,
        "CREATE TABLE t (id bigint, owner text); ALTER TABLE t ENABLE ROW LEVEL SECURITY;
        CREATE POLICY own ON t USING (owner = CURRENT_USER);",
    )?;
    let mut rows = String::from_str(alloc, "id,owner\n")?;
    for n in 0..ROLES {
        write!(schema, " CREATE ROLE r{n}; GRANT SELECT ON t TO r{n};")?;
        write!(rows, "{n},r{n}\n")?;
    }
    let mut store = store_of(alloc, schema.as_str())?;
    load(&mut store, "t", rows.as_str())?;
    Ok(store)
}

// There are more roles than there is room for.
#[test]
fn what_is_known_of_many_roles_is_forgotten(rt: HostRuntime) -> Result<(), Fail> {
    let store = owners(rt.alloc())?;
    let mut known = Known::new(rt.alloc(), &store);
    for n in 0..ROLES.wrapping_mul(2) {
        let k = n.checked_rem(ROLES).unwrap_or(0);
        let role = format!(in rt.alloc(); "r{k}")?;
        let text = format!(in rt.alloc(); "SELECT id FROM t WHERE id >= {k}")?;
        compare(&rt, &store, &mut known, role.as_str(), text.as_str())?;
    }
    Ok(())
}

// The requests for memory of what explains a role's text.
fn requests_of<'h>(
    heap: &'h Metered<Global>,
    known: &mut Known<'_, &'h Metered<Global>>,
    role: &str,
    text: &str,
) -> u64 {
    let before = heap.requests(0);
    let (status, said) = known.explained(heap, role, text);
    let requests = heap.requests(0).wrapping_sub(before);
    drop(said);
    if status == 0 { requests } else { 0 }
}

// Three texts of a role, of which the second names the same column as the first, and the third another one.
fn find_out_once(rt: &(impl Abort + AllocGlobal), role: &str) -> Result<(), Fail> {
    let heap = Metered::counting(rt.alloc());
    let store = sales(&heap)?;
    let mut known = Known::new(&heap, &store);
    let first = requests_of(
        &heap,
        &mut known,
        role,
        "SELECT id FROM deal WHERE region = 1",
    );
    let second = requests_of(
        &heap,
        &mut known,
        role,
        "SELECT id FROM deal WHERE region = 2",
    );
    let other = requests_of(
        &heap,
        &mut known,
        role,
        "SELECT id FROM deal WHERE amount = 2",
    );
    assert!(rt; second > 0 && second < other, "{role}: {second} of {other}");
    assert!(rt; other < first, "{role}: {other} of {first}");
    Ok(())
}

// A role with a policy, and one that sees the table whole.
#[test]
fn which_rows_a_role_sees_is_found_out_once(rt: HostRuntime) -> Result<(), Fail> {
    find_out_once(&rt, "alice")?;
    find_out_once(&rt, "audit")
}
