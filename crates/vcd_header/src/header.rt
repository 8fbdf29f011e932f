ghost use Rattle.std.specs.Prelude.{◌≡◌, ◌⊎◌, ◌∷◌, List, None, Some, IfErr, IfOk, OnOk, codes, map};
ghost use Rattle.std.specs.List.{after_first};
ghost use Rattle.vcd_header.specs.Declares.{declared_behind, declared_by_groups};
ghost use Rattle.vcd_header.specs.Header.{begins_section, fault_within, form_fault, header_fault};
ghost use Rattle.vcd_header.specs.Sections.{body, ends_header, group_rest, header, is_end, is_word};
ghost use Rattle.vcd_header.specs.Tokens.{tok_of};
ghost use Rattle.vcd_header.specs.declared.fault.VcdFault.TheVariants.{Memory, Truncated};

use crate::command::{is_command, take_command};
use crate::declarations::Declarations;
use crate::fault::VcdFault;
use crate::section::{is_end, section, skip_section};
use crate::token::{Token, Tokens};
use std::alloc::Global;

/// Takes the header of a waveform of this many bytes.
pub fn take_header<'a>(
    alloc: Global,
    size: u64,
    tokens: &mut Tokens<'a>,
) -> Result<Declarations<'a>, VcdFault>
    ensures faultless { OnOk result (header_fault size tokens.old ≡ None) }
    ensures declared { IfOk result (λ declared. declared ≡ declared_by_groups (header tokens.old)) }
    ensures body { OnOk result (tokens.new ≡ body tokens.old) }
    ensures fault { IfErr result (λ fault. (header_fault size tokens.old ≡ Some fault) ⊎ (fault ≡ Memory)) }
{
    let mut declarations = Declarations::new(alloc);
    while let Some(first) = tokens.next() {
        match take_group(alloc, &mut declarations, first, tokens) {
            Ok(true) => return Ok(declarations),
            Ok(false) => {}
            Err(fault) => return Err(fault),
        }
    }
    Err(VcdFault::Truncated { at: size })
}

// Takes a section, of which the first token is taken, and says whether it ends the header.
fn take_group<'a>(
    alloc: Global,
    declarations: &mut Declarations<'a>,
    first: Token<'a>,
    tokens: &mut Tokens<'a>,
) -> Result<bool, VcdFault>
    ensures faultless { OnOk result
        (fault_within declarations.old.variables declarations.old.path (tok_of first.entry ∷ group_rest tokens.old)
        ≡ None) }
    ensures declared { OnOk result
        (declarations.new ≡ declared_behind declarations.old (tok_of first.entry ∷ group_rest tokens.old)) }
    ensures rest { OnOk result (tokens.new ≡ after_first is_end tokens.old) }
    ensures last { IfOk result (λ last. last ≡ ends_header (tok_of first.entry ∷ group_rest tokens.old)) }
    ensures fault { IfErr result
        (λ fault. (fault_within declarations.old.variables declarations.old.path
        (tok_of first.entry ∷ group_rest tokens.old) ≡ Some fault) ⊎ (fault ≡ Memory)) }
{
    let at = first.at;
    if is_end(first) || !begins_section(first.text) {
        return Err(VcdFault::Token { at });
    }
    if is_command(first) {
        match section(alloc, tokens)? {
            Some(inside) => match take_command(alloc, declarations, first, &inside) {
                Ok(()) => Ok(false),
                Err(fault) => Err(fault),
            },
            None => Err(VcdFault::Truncated { at }),
        }
    } else if skip_section(tokens) {
        Ok(first.text == b"$enddefinitions".as_slice())
    } else {
        Err(VcdFault::Truncated { at })
    }
}

fn begins_section(text: &[u8]) -> bool
    ensures { result ≡ begins_section text.now }
{
    !text.is_empty() && text[0] == b'$'
}
