//! Laws of netlists. Each is the contract of a function that does nothing.
ghost use Rattle.netlists.specs.Faults.{IsNetlistOrFault, IsOneFault};

use vlog_lexer::laws::{one_fault as one_lex_fault, one_token_list, tokens_or_fault};
use vlog_parse::laws::bytes_spell_one_design;

/// A netlist is refused for one reason at most, but for the place of tokens that spell no design.
pub fn one_fault()
    ensures { IsOneFault }
{
    one_token_list();
    one_lex_fault();
    tokens_or_fault();
    bytes_spell_one_design();
}

/// No reason applies to a netlist.
pub fn netlist_or_fault()
    ensures { IsNetlistOrFault }
{
    one_token_list();
    tokens_or_fault();
    bytes_spell_one_design();
}
