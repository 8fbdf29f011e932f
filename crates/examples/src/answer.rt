use crate::deed::Said;
use crate::files::Files;
use crate::shown::put_lines;
use crate::trouble::Trouble;
use std::alloc::{AllocError, Global};

/// What a command answers: the lines that say it, and the files that it leaves.
#[derive(Drop)]
pub struct Answer {
    /// Each line ends with a newline.
    pub says: String,
    /// Whether a call of the device failed, as it says.
    pub fault: bool,
    pub files: Files,
}

impl Answer {
    /// The answer of a command that changes no file.
    pub fn of_text(alloc: Global, says: String, files: &Files) -> Result<Answer, Trouble> {
        let files = files.copy(alloc)?;
        Ok(Answer {
            says,
            fault: false,
            files,
        })
    }

    /// The answer of a deed that leaves these files.
    pub fn of_deed(said: Said, files: Files) -> Answer {
        let Said { says, fault } = said;
        Answer { says, fault, files }
    }

    /// Whether both say the same and leave the same.
    pub fn same(&self, other: &Answer) -> bool {
        self.says.as_str() == other.says.as_str() && self.files.same(&other.files)
    }

    /// Adds what it says, each line with this label before it, and each file that is another than in `before`: its
    /// text, or that it is the same as in `last`.
    pub fn put(
        &self,
        page: &mut String,
        label: &str,
        before: &Files,
        last: &Files,
    ) -> Result<(), AllocError> {
        for line in self.says.lines() {
            writeln!(page, "  {label}{line}")?;
        }
        for file in self.files.list() {
            if !before.has(file) && last.has(file) {
                writeln!(page, "  {}: the same", file.name)?;
            } else if !before.has(file) {
                put_file(page, &file.name, &file.bytes)?;
            }
        }
        Ok(())
    }
}

fn put_file(page: &mut String, name: &str, bytes: &[u8]) -> Result<(), AllocError> {
    writeln!(page, "  {name}: {} bytes", bytes.len())?;
    put_lines(page, bytes)
}
