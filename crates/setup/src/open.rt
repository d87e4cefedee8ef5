//! A store from a schema text and the files of its tables.

ghost use Rattle.std.specs.Prelude.{◌≡◌, IfErr, IfOk, Ok};
ghost use Rattle.engine.specs.Database.{at_start};
ghost use Rattle.setup.specs.Opening.{IsOfSchema, IsOpened, IsNotOpened, schema_fault};
ghost use Rattle.setup.specs.Schema.{schema_applied};

use crate::error::{SchemaError, SetupError};
use crate::load::{Folder, load_tables};
use crate::schema::apply_schema;
use engine::Store;
use memory::{Failure, Heap};

// The failure of a schema text that is not applied.
fn schema_fault<A: Heap>(failure: Failure<SchemaError>) -> Failure<SetupError<A>>
    ensures { result ≡ schema_fault failure }
{
    match failure {
        Failure::Error(error) => Failure::Error(SetupError::Schema(error)),
        Failure::OutOfMemory => Failure::OutOfMemory,
    }
}

/// The store of a schema text, its tables without rows; or the first error.
pub fn store_of_schema<A: Heap>(alloc: A, schema: &str) -> Result<Store<A>, Failure<SetupError<A>>>
    ensures made { IfOk result (λ store. schema_applied at_start schema.now ≡ Ok store) }
    ensures fault { IfErr result (λ f. IsOfSchema schema.now f) }
{
    let mut store = Store::new(alloc)?;
    match apply_schema(alloc, &mut store, schema) {
        Ok(()) => Ok(store),
        Err(error) => {
            drop(store);
            Err(schema_fault(error))
        }
    }
}

/// The store of a schema text, with the rows of each table from its file in a folder; or the first error, of the schema
/// and then of the tables in order of creation.
pub fn open_store<A: Heap, F: Folder<A>>(
    alloc: A,
    schema: &str,
    folder: &F,
) -> Result<Store<A>, Failure<SetupError<A>>>
    ensures opened { IfOk result (λ store. IsOpened schema.now (F.bytes folder.now) store) }
    ensures fault { IfErr result (λ f. IsNotOpened schema.now (F.path folder.now) (F.bytes folder.now) f) }
{
    let mut store = store_of_schema(alloc, schema)?;
    match load_tables(alloc, &mut store, folder) {
        Ok(()) => Ok(store),
        Err(fault) => {
            drop(store);
            Err(fault)
        }
    }
}
