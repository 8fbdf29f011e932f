use crate::trouble::Trouble;
use std::alloc::Global;

/// A file of a transcript.
#[derive(Drop)]
pub struct File {
    pub name: String,
    pub bytes: Vec<u8>,
}

/// The files that a command finds or leaves, each name once.
#[derive(Drop)]
pub struct Files {
    list: Vec<File>,
}

impl Files {
    /// No files.
    pub fn new(alloc: Global) -> Files {
        Files {
            list: Vec::new(alloc),
        }
    }

    /// The files in the order in which their names came.
    pub fn list(&self) -> &[File] {
        &self.list
    }

    /// The bytes of a file, where there is one of this name.
    pub fn get(&self, name: &str) -> Option<&[u8]> {
        for file in &self.list {
            if file.name.as_str() == name {
                return Some(file.bytes.as_slice());
            }
        }
        None
    }

    /// Puts these bytes into the file, which may be new.
    pub fn put(&mut self, alloc: Global, name: &str, bytes: &[u8]) -> Result<(), Trouble> {
        let bytes = Vec::from_slice(alloc, bytes)?;
        for file in self.list.iter_mut() {
            if file.name.as_str() == name {
                file.bytes = bytes;
                return Ok(());
            }
        }
        self.add(alloc, name, bytes)
    }

    fn add(&mut self, alloc: Global, name: &str, bytes: Vec<u8>) -> Result<(), Trouble> {
        let name = String::from_str(alloc, name)?;
        self.list.push(File { name, bytes })?;
        Ok(())
    }

    /// A copy of all.
    pub fn copy(&self, alloc: Global) -> Result<Files, Trouble> {
        let mut copy = Files::new(alloc);
        for file in &self.list {
            copy.add(alloc, &file.name, Vec::from_slice(alloc, &file.bytes)?)?;
        }
        Ok(copy)
    }

    /// Whether both have the same names with the same bytes.
    pub fn same(&self, other: &Files) -> bool {
        self.list.len() == other.list.len() && self.list.iter().all(|file| other.has(file))
    }

    /// Whether there is this file with these bytes.
    pub fn has(&self, file: &File) -> bool {
        self.get(&file.name) == Some(file.bytes.as_slice())
    }
}
