//! The matrix of the clinic of examples/from-postgresql, as its export is.

use crate::compared::is_counted;
use crate::matrix::HEADINGS;
use crate::texts::{is_text, made};
use access_matrix::matrix;
use fixtures::{FixtureError, load, store_of};
use memory::Failure;
use std::alloc::Global;
use std::test::Fail;
use store::Store;

const SCHEMA: &str =
    "CREATE ROLE ana; CREATE ROLE ben; CREATE ROLE clinic; CREATE ROLE doctors; CREATE ROLE inspector BYPASSRLS;
CREATE ROLE nurses; GRANT doctors TO ana; GRANT nurses TO ben;
CREATE TABLE patient (id bigint NOT NULL, name text, ward bigint, doctor text, released boolean NOT NULL);
ALTER TABLE patient OWNER TO clinic; ALTER TABLE patient ENABLE ROW LEVEL SECURITY;
CREATE TABLE referral (id bigint, patient bigint);
ALTER TABLE referral OWNER TO clinic; ALTER TABLE referral ENABLE ROW LEVEL SECURITY;
CREATE TABLE visit (id bigint NOT NULL, patient bigint, doctor text, minutes bigint, note text, held text);
ALTER TABLE visit OWNER TO clinic; ALTER TABLE visit ENABLE ROW LEVEL SECURITY; ALTER TABLE visit FORCE ROW LEVEL SECURITY;
CREATE TABLE ward (id bigint NOT NULL, name text NOT NULL); ALTER TABLE ward OWNER TO clinic;
CREATE POLICY named ON patient AS RESTRICTIVE FOR SELECT TO PUBLIC USING (name IS NOT NULL);
CREATE POLICY of_doctor ON patient FOR SELECT TO doctors USING (doctor = CURRENT_USER);
CREATE POLICY of_ward ON patient FOR SELECT TO nurses USING ((ward IN (1, 2)) AND (NOT released));
GRANT SELECT ON patient TO doctors; GRANT SELECT ON patient TO inspector;
GRANT SELECT (id, ward, released) ON patient TO nurses;
CREATE POLICY long ON visit FOR SELECT TO clinic USING ((minutes > 20) AND (doctor NOT IN ('ben', 'carla')));
CREATE POLICY own ON visit FOR SELECT TO doctors USING ((doctor = CURRENT_USER) OR ((minutes >= -10) AND (minutes <= 0)));
GRANT SELECT ON visit TO doctors; GRANT SELECT ON visit TO inspector; GRANT SELECT (id, patient) ON visit TO nurses;
GRANT SELECT ON ward TO PUBLIC;";

const PATIENTS: &str = "id,name,ward,doctor,released
1,\"Ada\",1,\"ana\",f
2,\"Bo \"\"Bobby\"\"\",1,\"ana\",t
3,\"Cy\",2,\"carl\",f
4,\"Di\",\\N,\"carl\",f
5,\\N,2,\\N,t
";

const VISITS: &str = "id,patient,doctor,minutes,note,held
10,1,\"ana\",30,\"first, and last\",\"2026-01-05\"
11,1,\"ana\",\\N,\"two
lines\",\"2026-01-06\"
12,2,\"ana\",-5,\"said \"\"no\"\"\",\\N
13,3,\"carl\",60,\"\",\"2026-02-01\"
14,4,\"carl\",15,\\N,\\N
15,5,\"ana\",0,\"both\",\"2026-03-03\"
";

const WARDS: &str = "id,name\n1,\"north\"\n2,\"south\"\n3,\"\"\n";

const ALL: &str = "root,patient,all,5,5,superuser
root,referral,all,0,0,superuser
root,visit,all,6,6,superuser
root,ward,all,3,3,superuser
ana,patient,all,2,5,\"by named (restrictive), of_doctor\"
ana,referral,none,0,0,no grant
ana,visit,all,4,6,by own
ana,ward,all,3,3,row security off
ben,patient,\"id, ward, released\",2,5,\"by named (restrictive), of_ward\"
ben,referral,none,0,0,no grant
ben,visit,\"id, patient\",0,6,no policy
ben,ward,all,3,3,row security off
clinic,patient,all,5,5,owner
clinic,referral,all,0,0,owner
clinic,visit,all,2,6,by long
clinic,ward,all,3,3,owner
doctors,patient,all,0,5,\"by named (restrictive), of_doctor\"
doctors,referral,none,0,0,no grant
doctors,visit,all,2,6,by own
doctors,ward,all,3,3,row security off
inspector,patient,all,5,5,BYPASSRLS
inspector,referral,none,0,0,no grant
inspector,visit,all,6,6,BYPASSRLS
inspector,ward,all,3,3,BYPASSRLS
nurses,patient,\"id, ward, released\",2,5,\"by named (restrictive), of_ward\"
nurses,referral,none,0,0,no grant
nurses,visit,\"id, patient\",0,6,no policy
nurses,ward,all,3,3,row security off
";

fn clinic(alloc: Global) -> Result<Box<Store<Global>>, Failure<FixtureError>> {
    let mut store = store_of(alloc, SCHEMA)?;
    load(&mut store, "patient", PATIENTS)?;
    load(&mut store, "referral", "id,patient\n")?;
    load(&mut store, "visit", VISITS)?;
    load(&mut store, "ward", WARDS)?;
    Ok(store)
}

#[test]
fn matrix_of_the_clinic(rt: HostRuntime) -> Result<(), Fail> {
    let alloc = rt.alloc();
    let store = made(&rt, clinic(alloc));
    let reply = matrix(alloc, &store, &[])?;
    is_text(&rt, alloc, &reply, HEADINGS, ALL, "the clinic")?;
    is_counted(&rt, alloc, &store, &reply)?;
    Ok(())
}
