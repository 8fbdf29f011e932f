ghost use Rattle.std.specs.Prelude.{◌≡◌, ◌⊎◌, ◌||◌, ◌==◌, ◌∷◌, ◌++◌, [], None, Some, IfErr, OnOk, codes, length, map, not};
ghost use Rattle.std.specs.Option.{option_or};
ghost use Rattle.vcd_header.specs.Declares.{declared_with};
ghost use Rattle.vcd_header.specs.Faults.{fault_if};
ghost use Rattle.vcd_header.specs.Header.{form_fault};
ghost use Rattle.vcd_header.specs.Scopes.{parent, scope_within};
ghost use Rattle.vcd_header.specs.Sections.{is_word};
ghost use Rattle.vcd_header.specs.Tokens.{tok_of};
ghost use Rattle.vcd_header.specs.declared.fault.VcdFault.TheVariants.{Memory, Token as Form};

use crate::declarations::Declarations;
use crate::fault::VcdFault;
use crate::select::without_backslash;
use crate::token::Token;
use std::alloc::Global;

/// Whether the section that the token begins opens or closes a scope or declares a variable.
pub(crate) fn is_command(first: Token) -> bool
    ensures { result ≡ (is_word (codes "$scope") (tok_of first.entry) || is_word (codes "$upscope")
        (tok_of first.entry) || is_word (codes "$var") (tok_of first.entry)) }
{
    first.text == b"$scope".as_slice()
        || first.text == b"$upscope".as_slice()
        || first.text == b"$var".as_slice()
}

/// Does what a section says, by its first token and those up to its `$end`.
pub(crate) fn take_command<'a>(
    alloc: Global,
    declarations: &mut Declarations<'a>,
    first: Token<'a>,
    inside: &[Token<'a>],
) -> Result<(), VcdFault>
    ensures faultless { OnOk result
        (form_fault declarations.old.variables declarations.old.path (tok_of first.entry) (map tok_of inside.now)
        ≡ None) }
    ensures declared { OnOk result
        (declarations.new ≡ declared_with declarations.old (tok_of first.entry) (map tok_of inside.now)) }
    ensures fault { IfErr result
        (λ fault. (form_fault declarations.old.variables declarations.old.path (tok_of first.entry)
        (map tok_of inside.now) ≡ Some fault) ⊎ (fault ≡ Memory)) }
{
    let at = first.at;
    if first.text == b"$scope".as_slice() {
        take_scope(declarations, at, inside)
    } else if first.text == b"$upscope".as_slice() {
        take_upscope(declarations, at, inside)
    } else if first.text == b"$var".as_slice() {
        declarations.declare(alloc, at, inside)
    } else {
        Ok(())
    }
}

fn take_scope<'a>(
    declarations: &mut Declarations<'a>,
    at: u64,
    inside: &[Token<'a>],
) -> Result<(), VcdFault>
    ensures faultless { OnOk result (fault_if (not (length (map tok_of inside.now) == 2)) (Form at) ≡ None) }
    ensures opened { OnOk result (declarations.new ≡ record declarations.old {
      path = scope_within declarations.old.path (map tok_of inside.now);
      scopes = declarations.old.scopes ++ scope_within declarations.old.path (map tok_of inside.now) ∷ [];
    }) }
    ensures fault { IfErr result
        (λ fault. (fault_if (not (length (map tok_of inside.now) == 2)) (Form at) ≡ Some fault) ⊎ (fault ≡ Memory)) }
{
    if inside.len() != 2 {
        return Err(VcdFault::Token { at });
    }
    declarations.open(without_backslash(inside[1].text))?;
    Ok(())
}

fn take_upscope(declarations: &mut Declarations, at: u64, inside: &[Token]) -> Result<(), VcdFault>
    ensures faultless { OnOk result
        (option_or (fault_if (not (length (map tok_of inside.now) == 0)) (Form at))
        (fault_if (length declarations.old.path == 0) (Form at)) ≡ None) }
    ensures closed { OnOk result (declarations.new ≡ record declarations.old { path = parent declarations.old.path }) }
    ensures fault { IfErr result
        (λ fault. (option_or (fault_if (not (length (map tok_of inside.now) == 0)) (Form at))
        (fault_if (length declarations.old.path == 0) (Form at)) ≡ Some fault)) }
{
    if !inside.is_empty() || declarations.is_top() {
        return Err(VcdFault::Token { at });
    }
    declarations.close();
    Ok(())
}
