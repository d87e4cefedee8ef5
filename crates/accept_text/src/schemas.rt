//! Schema texts, and the statements that they are or the offsets at which they are refused.

use crate::trees::is_read;
use std::process::Abort;
use syntax::{parse_schema, parse_statement};

// A text, and its statements or the offset at which it is refused.
type Row = (&'static str, Result<&'static str, u32>);

// Roles.
static ROLES: [Row; 18] = [
    ("CREATE ROLE a", Ok("CREATE ROLE a")),
    ("create role A BypassRLS", Ok("CREATE ROLE a BYPASSRLS")),
    ("CREATE ROLE a SUPERUSER", Ok("CREATE ROLE a SUPERUSER")),
    (
        "CREATE ROLE a SUPERUSER BYPASSRLS",
        Ok("CREATE ROLE a SUPERUSER BYPASSRLS"),
    ),
    (
        "CREATE ROLE superuser bypassrls",
        Ok("CREATE ROLE superuser BYPASSRLS"),
    ),
    ("CREATE ROLE public", Ok("CREATE ROLE public")),
    ("CREATE ROLE a BYPASSRLS SUPERUSER", Err(24)),
    ("CREATE ROLE a SUPERUSER SUPERUSER", Err(24)),
    ("CREATE ROLE select", Err(12)),
    ("CREATE ROLE", Err(11)),
    ("CREATE ROLE a, b", Err(13)),
    ("GRANT g TO m", Ok("GRANT g TO m")),
    ("GRANT role TO PUBLIC", Ok("GRANT role TO public")),
    ("GRANT g TO m, n", Err(12)),
    ("GRANT g, h TO m", Err(7)),
    ("GRANT g FROM m", Err(8)),
    ("REVOKE g FROM m", Ok("REVOKE g FROM m")),
    ("REVOKE g TO m", Err(9)),
];

// Tables and indexes.
static TABLES: [Row; 17] = [
    ("CREATE TABLE t (a bigint)", Ok("CREATE TABLE t (a bigint)")),
    (
        "CREATE TABLE t (a bigint NOT NULL, b text, c boolean NOT NULL, d boolean)",
        Ok("CREATE TABLE t (a bigint NOT NULL, b text, c boolean NOT NULL, d boolean)"),
    ),
    (
        "CREATE TABLE table (text text, bigint boolean)",
        Ok("CREATE TABLE table (text text, bigint boolean)"),
    ),
    ("CREATE TABLE t ()", Err(16)),
    ("CREATE TABLE t (a int)", Err(18)),
    ("CREATE TABLE t (a bigint NULL)", Err(25)),
    ("CREATE TABLE t (a bigint NOT)", Err(28)),
    ("CREATE TABLE t (a bigint,)", Err(25)),
    ("CREATE TABLE t (a, b text)", Err(17)),
    ("CREATE TABLE t a bigint", Err(15)),
    ("CREATE TABLE t (a bigint", Err(24)),
    ("CREATE VIEW v", Err(7)),
    ("CREATE INDEX i ON t (c)", Ok("CREATE INDEX i ON t (c)")),
    (
        "create index index on index ( index )",
        Ok("CREATE INDEX index ON index (index)"),
    ),
    ("CREATE INDEX i ON t (c, d)", Err(22)),
    ("CREATE INDEX ON t (c)", Err(13)),
    ("CREATE INDEX i ON t", Err(19)),
];

// ALTER TABLE.
static ALTERED: [Row; 13] = [
    ("ALTER TABLE t OWNER TO r", Ok("ALTER TABLE t OWNER TO r")),
    (
        "ALTER TABLE owner OWNER TO owner",
        Ok("ALTER TABLE owner OWNER TO owner"),
    ),
    (
        "ALTER TABLE t ENABLE ROW LEVEL SECURITY",
        Ok("ALTER TABLE t ENABLE"),
    ),
    (
        "ALTER TABLE t DISABLE ROW LEVEL SECURITY",
        Ok("ALTER TABLE t DISABLE"),
    ),
    (
        "ALTER TABLE t FORCE ROW LEVEL SECURITY",
        Ok("ALTER TABLE t FORCE"),
    ),
    (
        "ALTER TABLE no NO FORCE row level security",
        Ok("ALTER TABLE no NO FORCE"),
    ),
    ("ALTER TABLE t NO ENABLE ROW LEVEL SECURITY", Err(17)),
    ("ALTER TABLE t ENABLE ROW SECURITY", Err(25)),
    ("ALTER TABLE t ENABLE", Err(20)),
    ("ALTER TABLE t ROW LEVEL SECURITY", Err(14)),
    ("ALTER TABLE t OWNER r", Err(20)),
    ("ALTER TABLE t RENAME TO u", Err(14)),
    ("ALTER ROLE r", Err(6)),
];

// GRANT SELECT and REVOKE SELECT.
static GRANTS: [Row; 15] = [
    ("GRANT SELECT ON t TO r", Ok("GRANT SELECT ON t TO r")),
    (
        "GRANT SELECT (a, b) ON t TO r, p",
        Ok("GRANT SELECT (a, b) ON t TO r, p"),
    ),
    (
        "GRANT SELECT(a) ON t TO PUBLIC",
        Ok("GRANT SELECT (a) ON t TO public"),
    ),
    (
        "GRANT SELECT ON t TO alice, Public, bob",
        Ok("GRANT SELECT ON t TO alice, public, bob"),
    ),
    ("GRANT SELECT () ON t TO r", Err(14)),
    ("GRANT SELECT (a,) ON t TO r", Err(16)),
    ("GRANT SELECT TO m", Err(13)),
    ("GRANT SELECT ON t FROM r", Err(18)),
    ("GRANT SELECT ON t TO", Err(20)),
    ("GRANT SELECT ON t, u TO r", Err(17)),
    ("GRANT SELECT, INSERT ON t TO r", Err(12)),
    (
        "REVOKE SELECT ON t FROM PUBLIC",
        Ok("REVOKE SELECT ON t FROM public"),
    ),
    (
        "REVOKE SELECT (a, b) ON t FROM r, p",
        Ok("REVOKE SELECT (a, b) ON t FROM r, p"),
    ),
    ("REVOKE SELECT ON t TO r", Err(19)),
    ("REVOKE SELECT FROM t", Err(14)),
];

// Policies.
static POLICIES: [Row; 20] = [
    (
        "CREATE POLICY p ON t USING (a = 1)",
        Ok("CREATE POLICY p ON t PERMISSIVE TO public USING (a = 1)"),
    ),
    (
        "CREATE POLICY p ON t AS RESTRICTIVE FOR SELECT TO r, PUBLIC USING (a > -1 AND b)",
        Ok("CREATE POLICY p ON t RESTRICTIVE TO r, public USING AND[(a > -1), b]"),
    ),
    (
        "CREATE POLICY p ON t AS PERMISSIVE FOR ALL USING (CURRENT_USER = t.b)",
        Ok("CREATE POLICY p ON t PERMISSIVE TO public USING (CURRENT_USER = t.b)"),
    ),
    (
        "CREATE POLICY policy ON policy AS restrictive USING (restrictive)",
        Ok("CREATE POLICY policy ON policy RESTRICTIVE TO public USING restrictive"),
    ),
    (
        "CREATE POLICY p ON t TO q USING ((a OR b) OR NOT count(*) IN (1))",
        Ok("CREATE POLICY p ON t PERMISSIVE TO q USING OR[a, b, (NOT (count(*) IN [1]))]"),
    ),
    ("CREATE POLICY p ON t FOR UPDATE USING (a)", Err(25)),
    (
        "CREATE POLICY p ON t FOR ALL AS RESTRICTIVE USING (a)",
        Err(29),
    ),
    ("CREATE POLICY p ON t TO r FOR ALL USING (a)", Err(26)),
    ("CREATE POLICY p ON t AS strict USING (a)", Err(24)),
    ("CREATE POLICY p ON t USING a", Err(27)),
    ("CREATE POLICY p ON t USING ()", Err(28)),
    ("CREATE POLICY p ON t USING (a", Err(29)),
    ("CREATE POLICY p ON t USING (a) WITH CHECK (a)", Err(31)),
    ("CREATE POLICY p ON t", Err(20)),
    ("CREATE POLICY p USING (a)", Err(16)),
    (
        "CREATE POLICY p ON t USING (a = 9223372036854775808)",
        Err(32),
    ),
    ("CREATE POLICY p ON t USING (a = '\\N')", Err(32)),
    ("DROP POLICY p ON t", Ok("DROP POLICY p ON t")),
    ("DROP POLICY p", Err(13)),
    ("DROP TABLE t", Err(5)),
];

// A statement alone has no semicolon.
static ENDS: [Row; 6] = [
    ("CREATE ROLE a;", Err(13)),
    ("", Err(0)),
    (";", Err(0)),
    ("SELECT a FROM t", Err(0)),
    ("INSERT INTO t", Err(0)),
    ("CREATE ROLE a -- b", Err(14)),
];

// Schemas, each statement of the tree followed by a semicolon.
static SCHEMAS: [Row; 12] = [
    ("", Ok("")),
    (" \n", Ok("")),
    ("CREATE ROLE a;", Ok("CREATE ROLE a;")),
    (
        "CREATE ROLE a; GRANT a TO b ;\nDROP POLICY p ON t;",
        Ok("CREATE ROLE a;GRANT a TO b;DROP POLICY p ON t;"),
    ),
    ("CREATE ROLE a", Err(13)),
    ("CREATE ROLE a; CREATE ROLE b", Err(28)),
    ("CREATE ROLE a CREATE ROLE b;", Err(14)),
    (";", Err(0)),
    ("CREATE ROLE a;;", Err(14)),
    ("CREATE ROLE a; -- more", Err(15)),
    ("CREATE ROLE a; SELECT a FROM t;", Err(15)),
    ("CREATE", Err(6)),
];

fn statements_are(rt: &(impl Abort + AllocGlobal), name: &str, rows: &[Row]) {
    for (text, want) in rows {
        let read = parse_statement(rt.alloc(), text);
        is_read(rt, false, read, *want, (name, text));
    }
}

fn schemas_are(rt: &(impl Abort + AllocGlobal), name: &str, rows: &[Row]) {
    for (text, want) in rows {
        let read = parse_schema(rt.alloc(), text);
        is_read(rt, false, read, *want, (name, text));
    }
}

fn roles() -> &'static [Row] {
    &ROLES
}

fn tables() -> &'static [Row] {
    &TABLES
}

fn altered() -> &'static [Row] {
    &ALTERED
}

fn grants() -> &'static [Row] {
    &GRANTS
}

fn policies() -> &'static [Row] {
    &POLICIES
}

fn ends() -> &'static [Row] {
    &ENDS
}

fn schemas() -> &'static [Row] {
    &SCHEMAS
}

#[test]
fn statements_and_schemas_by_the_grammar(rt: HostRuntime) {
    statements_are(&rt, "roles", roles());
    statements_are(&rt, "tables", tables());
    statements_are(&rt, "altered", altered());
    statements_are(&rt, "grants", grants());
    statements_are(&rt, "policies", policies());
    statements_are(&rt, "ends", ends());
    schemas_are(&rt, "schemas_by_the_grammar", schemas());
}
