//! The formats of events below a folder.
use std::fs::Metadata;
use std::io::ErrorKind;
use std::rt::Files;
use std::{fs, io};

/// The format of an event, and the name of its system.
#[derive(Drop)]
pub struct FormatText {
    /// The name of the system.
    pub system: Vec<u8>,
    /// The text.
    pub text: Vec<u8>,
}

/// The names of what is in a folder, in their order. A name that isn't UTF-8 is passed over.
pub(crate) fn names_in<R: Files + AllocGlobal + Clone + Drop>(
    rt: &R,
    folder: &str,
) -> io::Result<Vec<String>> {
    let mut names = Vec::new(rt.alloc());
    for entry in fs::read_dir(rt, folder)? {
        match entry {
            Ok(entry) => names.push(String::from_str(rt.alloc(), entry.file_name())?)?,
            Err(error) if error.kind() == ErrorKind::InvalidFilename => {}
            Err(error) => return Err(error),
        }
    }
    names.sort()?;
    Ok(names)
}

/// What is known of a file or a folder; `None` if it isn't there.
fn found_at<R: Files>(rt: &R, path: &str) -> io::Result<Option<Metadata>> {
    match fs::metadata(rt, path) {
        Ok(found) => Ok(Some(found)),
        Err(error) => match error.kind() {
            ErrorKind::NotFound | ErrorKind::NotADirectory => Ok(None),
            _ => Err(error),
        },
    }
}

/// The text of a file; `None` if it isn't there, or is no file: a folder, a pipe or a device.
fn text_of<R: Files + AllocGlobal>(rt: &R, path: &str) -> io::Result<Option<Vec<u8>>> {
    match found_at(rt, path)? {
        Some(found) if found.is_file() => Ok(Some(fs::read(rt, path)?)),
        _ => Ok(None),
    }
}

/// Puts the formats of a system's events.
fn put_system<R: Files + AllocGlobal + Clone + Drop>(
    rt: &R,
    formats: &mut Vec<FormatText>,
    system: &str,
    path: &str,
) -> io::Result<()> {
    for event in &names_in(rt, path)? {
        let file = format!(in rt.alloc(); "{path}/{event}/format")?;
        if let Some(text) = text_of(rt, file.as_str())? {
            let system = system.as_bytes().to_vec(rt.alloc())?;
            formats.push(FormatText { system, text })?;
        }
    }
    Ok(())
}

/// The formats of the events below a folder, as a kernel has them in `events`: a folder for each system, in it one for
/// each event, and there the file `format`. They are in the order of the names of system and event, whatever order the
/// folders have. What is no folder, and events without that file, are passed over.
pub fn formats_below<R: Files + AllocGlobal + Clone + Drop>(
    rt: &R,
    path: &str,
) -> io::Result<Vec<FormatText>> {
    let mut formats = Vec::new(rt.alloc());
    for system in &names_in(rt, path)? {
        let folder = format!(in rt.alloc(); "{path}/{system}")?;
        match found_at(rt, folder.as_str())? {
            Some(found) if found.is_dir() => {
                put_system(rt, &mut formats, system.as_str(), folder.as_str())?;
            }
            _ => {}
        }
    }
    Ok(formats)
}
