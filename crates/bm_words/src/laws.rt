//! What holds of all words. A call does nothing and gives the law.
ghost use Rattle.bm_words.specs.Words.{HaveOneCommand};

/// Words ask for one command at most.
pub fn one_command()
    ensures { HaveOneCommand }
{}
