//! The files that the program reads.

ghost use Rattle.std.specs.Prelude.{◌≡◌, IfOk, string_bytes};
ghost use Rattle.rowplan.specs.Files.{csv_path};
ghost use Rattle.setup.specs.Loads.{IsOfFile};

use memory::{Failure, Text};
use setup::{Folder, SetupError, Store, open_store};
use std::alloc::{AllocError, Global};
use std::fs::File;
use std::io::{ErrorKind, Read};
use std::rt::Files;
use std::{fs, io};

/// The failure of a file of that path that cannot be read.
pub fn unreadable(alloc: Global, path: &str, error: &io::Error) -> Failure<SetupError<Global>>
    ensures { IsOfFile path.now result }
{
    match error.kind() {
        ErrorKind::OutOfMemory => Failure::OutOfMemory,
        _ => match Text::new(alloc, path) {
            Ok(path) => Failure::Error(SetupError::Input { path }),
            Err(_) => Failure::OutOfMemory,
        },
    }
}

/// The text in UTF-8 of a file, or of standard input where the path is `-`.
pub fn read_text(
    rt: &HostRuntime,
    alloc: Global,
    path: &str,
) -> Result<String, Failure<SetupError<Global>>> {
    let text = if path == "-" {
        io::read_to_string(alloc, rt.stdin())
    } else {
        fs::read_to_string(rt, path)
    };
    match text {
        Ok(text) => Ok(text),
        Err(error) => Err(unreadable(alloc, path, &error)),
    }
}

fn input_bytes(rt: &HostRuntime, alloc: Global) -> io::Result<Vec<u8>> {
    let mut bytes = Vec::new(alloc);
    rt.stdin().read_to_end(&mut bytes)?;
    Ok(bytes)
}

/// The bytes of a file, or of standard input where the path is `-`.
pub fn read_bytes(
    rt: &HostRuntime,
    alloc: Global,
    path: &str,
) -> Result<Vec<u8>, Failure<SetupError<Global>>> {
    let bytes = if path == "-" {
        input_bytes(rt, alloc)
    } else {
        fs::read(rt, path)
    };
    match bytes {
        Ok(bytes) => Ok(bytes),
        Err(error) => Err(unreadable(alloc, path, &error)),
    }
}

// The path of a table's file.
fn path_of(alloc: Global, dir: &str, table: &str) -> Result<String, AllocError>
    ensures { IfOk result (λ path. string_bytes path ≡ csv_path dir.now table.now) }
{
    let mut path = String::from_str(alloc, dir)?;
    path.push_str("/")?;
    path.push_str(table)?;
    path.push_str(".csv")?;
    Ok(path)
}

/// A folder with a file `t.csv` for each table `t`.
#[derive(Drop)]
pub struct Directory<'a, R: Files> {
    /// The file system.
    pub files: &'a R,
    /// The path of the folder.
    pub path: &'a str,
}

impl<R: Files> Folder<Global> for Directory<'_, R> {
    type File = R::File;

    ghost path = { λ folder table. csv_path folder.path.now table };

    fn open(&self, alloc: Global, table: &str) -> Result<R::File, Failure<SetupError<Global>>> {
        let path = path_of(alloc, self.path, table)?;
        match File::open(self.files, path.as_str()) {
            Ok(file) => Ok(file),
            Err(error) => Err(unreadable(alloc, path.as_str(), &error)),
        }
    }
}

/// The store of a schema text and of the files of a folder.
pub fn store_of(
    rt: &HostRuntime,
    alloc: Global,
    schema: &str,
    dir: &str,
) -> Result<Store<Global>, Failure<SetupError<Global>>> {
    let folder = Directory {
        files: rt,
        path: dir,
    };
    open_store(alloc, schema, &folder)
}
