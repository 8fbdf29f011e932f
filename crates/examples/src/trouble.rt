use bm_base::{Fault, NoMemory};
use std::alloc::{AllocError, AllocFailed};
use std::io;
use thiserror::Error;

/// Why a step of a transcript was not carried out.
#[derive(Clone, Copy, Debug, PartialEq, Eq, Error)]
pub enum Trouble {
    #[error("there is no such command")]
    Command,
    #[error("these are not the words of this command")]
    Words,
    #[error("there is no such file")]
    File,
    #[error("the old text does not stand once in the file")]
    Edit,
    #[error("a backslash stands before none of its letters, or a repeated text has no end")]
    Escape,
    #[error("a row does not have as many bits as there are cycles")]
    Row,
    #[error("there is no command before it")]
    Again,
    #[error("out of memory")]
    Memory,
    #[error("the system failed")]
    System,
}

impl From<AllocError> for Trouble {
    fn from(_: AllocError) -> Trouble {
        Trouble::Memory
    }
}

impl<T: Drop> From<AllocFailed<T>> for Trouble {
    fn from(_: AllocFailed<T>) -> Trouble {
        Trouble::Memory
    }
}

impl From<NoMemory> for Trouble {
    fn from(_: NoMemory) -> Trouble {
        Trouble::Memory
    }
}

impl From<Fault> for Trouble {
    fn from(_: Fault) -> Trouble {
        Trouble::System
    }
}

impl From<io::Error> for Trouble {
    fn from(_: io::Error) -> Trouble {
        Trouble::System
    }
}
