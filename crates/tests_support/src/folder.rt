//! A folder for the files of a test.
use std::alloc::Global;
use std::rt::{Env, Files};
use std::{env, fs, io};

/// Makes a folder that no other test uses, among those for temporary files, and gives its path. The
/// name and a number make its own name.
pub fn new_folder<E: Env + Files + AllocGlobal>(rt: &E, name: &str) -> io::Result<String> {
    let parent = env::temp_dir(rt)?;
    let parent = parent.as_path().as_str();
    for number in 0..10_000u32 {
        let folder = format!(in rt.alloc(); "{parent}/{name}_{number}")?;
        match fs::create_dir(rt, folder.as_str()) {
            Ok(()) => return Ok(folder),
            Err(error) if error.kind() == io::ErrorKind::AlreadyExists => {}
            Err(error) => return Err(error),
        }
    }
    Err(io::Error::from(io::ErrorKind::AlreadyExists))
}
