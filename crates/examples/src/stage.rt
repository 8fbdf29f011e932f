use crate::answer::Answer;
use crate::asked::Asked;
use crate::device::Failing;
use crate::files::Files;
use crate::trouble::Trouble;
use std::alloc::Global;

/// How far a transcript is carried out.
#[derive(Drop)]
pub struct Stage {
    pub alloc: Global,
    /// The files as they are now.
    pub files: Files,
    /// The last command, and the files as it found them.
    pub last: Option<Last>,
    /// The calls that are to fail in the next command.
    pub failing: Vec<Failing>,
    /// What is to be printed.
    pub page: String,
    /// How many commands did over real files what they did in memory, and how many did not.
    pub agreed: u32,
    pub differed: u32,
}

/// A command that was carried out.
#[derive(Drop)]
pub struct Last {
    pub asked: Asked,
    pub found: Files,
    pub left: Files,
}

impl Stage {
    /// A stage with no files.
    pub fn new(alloc: Global) -> Stage {
        Stage {
            alloc,
            files: Files::new(alloc),
            last: None,
            failing: Vec::new(alloc),
            page: String::new(alloc),
            agreed: 0,
            differed: 0,
        }
    }

    /// Notes whether both answers are the same.
    pub fn count(&mut self, same: bool) {
        if same {
            self.agreed = self.agreed.saturating_add(1);
        } else {
            self.differed = self.differed.saturating_add(1);
        }
    }

    /// Remembers a command and its answer.
    pub fn keep(&mut self, asked: Asked, found: Files, answer: Answer) -> Result<(), Trouble> {
        self.files = answer.files.copy(self.alloc)?;
        let left = answer.files;
        self.last = Some(Last { asked, found, left });
        Ok(())
    }
}
