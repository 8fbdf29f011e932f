//! What the definitions say of every source.
ghost use Rattle.vlog_tree.specs.Spelling.{IsOneDesign};
ghost use Rattle.vlog_parse.specs.Laws.{IsOneDesignOfTokens};

use vlog_lexer::laws::one_token_list;

/// Tokens spell one design at most.
pub fn one_design()
    ensures { IsOneDesignOfTokens }
{}

/// Bytes spell one design at most.
pub fn bytes_spell_one_design()
    ensures { IsOneDesign }
{
    one_token_list();
    one_design();
}
