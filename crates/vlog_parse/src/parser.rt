//! `parse`, and what it gives.
ghost use Rattle.std.specs.Prelude.{◌≡◌, ◌⊎◌, IfErr, IfOk};
ghost use Rattle.vlog_tree.specs.Spelling.Modules.{IsDesign};
ghost use Rattle.vlog_tree.specs.declared.design.Design as tree;
ghost use Rattle.vlog_parse.specs.Places.{place_in};
ghost use Rattle.vlog_parse.specs.Refusals.{IsCause, IsInProfile, IsMissed};
ghost use Rattle.vlog_parse.specs.declared.parse_fault.ParseFault.TheVariants.{Memory};

use crate::cursor::Cursor;
use crate::module::design;
use crate::nest::too_deep_at;
use crate::outside::outside_at;
use crate::parse_fault::ParseFault;
use std::alloc::Global;
use vlog_lexer::Tokens;
use vlog_numbers::{Fault, number_fault_at};
use vlog_tree::Design;

/// The design that the tokens spell, or the first reason that applies: a reserved word outside the profile, a number
/// outside the rules, a token too deep, tokens that spell nothing. The place of the last reason is that of a token
/// after which nothing can follow that mends it, or the source's length where a token is missing.
pub fn parse(alloc: Global, tokens: &Tokens) -> Result<Design, ParseFault>
    ensures spelled { IfOk result (λ design. IsDesign tokens.now.list design × IsInProfile tokens.now.list) }
    ensures refused { IfErr result (λ fault. IsCause tokens.now fault) }
    ensures whole { (design : tree.Design) → IsDesign tokens.now.list design → IsInProfile tokens.now.list
        → (result ≡ Ok design) ⊎ (result ≡ Err Memory) }
{
    let list = tokens.list();
    if let Some(at) = outside_at(list) {
        return Err(ParseFault::Outside { at });
    }
    if let Some(at) = number_fault_at(alloc, list)? {
        return Err(ParseFault::Number { at });
    }
    if let Some(at) = too_deep_at(list) {
        return Err(ParseFault::TooDeep { at });
    }
    spelled_design(alloc, tokens)
}

// The design that the tokens spell, or else the first token that does not fit.
fn spelled_design(alloc: Global, tokens: &Tokens) -> Result<Design, ParseFault>
    ensures spelled { IfOk result (λ design. IsDesign tokens.now.list design) }
    ensures whole { (design : tree.Design) → IsDesign tokens.now.list design
        → (result ≡ Ok design) ⊎ (result ≡ Err Memory) }
    ensures refused { IfErr result (λ fault. IsMissed tokens.now fault) }
{
    let list = tokens.list();
    let mut cursor = Cursor::new(list);
    match design(alloc, &mut cursor, list.len()) {
        Ok(design) => Ok(design),
        Err(Fault::Memory) => Err(ParseFault::Memory),
        Err(Fault::Token) => Err(ParseFault::Syntax {
            at: place(tokens, &cursor),
        }),
    }
}

// The place of the first of the tokens that are left, or the end of the source.
fn place(tokens: &Tokens, left: &Cursor<'_, '_>) -> u64
    ensures { result ≡ place_in tokens.now left.now }
{
    if left.is_empty() {
        tokens.source_len()
    } else {
        left.place()
    }
}
