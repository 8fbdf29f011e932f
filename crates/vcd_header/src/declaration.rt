ghost use Rattle.std.specs.Prelude.{◌≡◌, List, IfOk, IfSome, map};
ghost use Rattle.std.specs.List.{flat_map};
ghost use Rattle.std.specs.Option.{option_map};
ghost use Rattle.vcd_header.specs.Declares.{declares, path_in};
ghost use Rattle.vcd_header.specs.Scopes.{Path};
ghost use Rattle.vcd_header.specs.Tokens.{Tok, tok_of};
ghost use Rattle.vcd_header.specs.Variables.{declared_by, is_code, name_and_select};

use crate::select::{Select, named_alone, select_by, small_number, without_backslash};
use crate::token::Token;
use bm_base::NoMemory;
use std::alloc::Global;

/// What a header declares: a variable and its code.
#[derive(Clone, Copy)]
pub(crate) struct Declaration<'a> {
    /// The scope that it stands in, by its number, if it stands in one.
    pub scope: Option<usize>,
    pub name: &'a [u8],
    pub select: Select,
    /// How many bits it has.
    pub size: u32,
    pub code: &'a [u8],
}

/// The variable that a `$var` with these tokens declares in the scope, if they have the form.
pub(crate) fn declared_by<'a>(
    alloc: Global,
    scope: Option<usize>,
    tokens: &[Token<'a>],
) -> Result<Option<Declaration<'a>>, NoMemory>
    ensures scope { IfOk result (λ declaration. IfSome declaration (λ declaration. declaration.scope ≡ scope)) }
    ensures declares { IfOk result
        (λ declaration. (paths : List Path) → option_map (declares paths) declaration
        ≡ declared_by (path_in paths scope) (map tok_of tokens.now)) }
{
    if tokens.len() < 4 {
        return Ok(None);
    }
    let code = tokens[2].text;
    if !is_code(code) {
        return Ok(None);
    }
    let Some(size) = small_number(tokens[1].text) else {
        return Ok(None);
    };
    let (name, select) = name_and_select(alloc, tokens[3].text, &tokens[4..])?;
    Ok(Some(Declaration {
        scope,
        name,
        select,
        size,
        code,
    }))
}

// The name and the select of a name's token and of further tokens.
fn name_and_select<'a>(
    alloc: Global,
    name: &'a [u8],
    further: &[Token<'a>],
) -> Result<(&'a [u8], Select), NoMemory>
    ensures name { IfOk result (λ named. named.0.now ≡ (name_and_select name.now (map tok_of further.now)).0) }
    ensures select { IfOk result (λ named. named.1 ≡ (name_and_select name.now (map tok_of further.now)).1) }
{
    if further.is_empty() {
        return Ok(named_alone(name));
    }
    let joined = joined(alloc, further)?;
    Ok((without_backslash(name), select_by(&joined)))
}

// The texts of the tokens, one behind the other.
fn joined(alloc: Global, tokens: &[Token]) -> Result<Vec<u8>, NoMemory>
    ensures { IfOk result (λ text. text.items ≡ flat_map (λ (token : Tok). token.text) (map tok_of tokens.now)) }
{
    let mut text = Vec::new(alloc);
    for token in tokens {
        text.extend_from_slice(token.text)?;
    }
    Ok(text)
}

/// Whether the text is printable bytes, as a code is.
pub fn is_code(text: &[u8]) -> bool
    ensures { result ≡ is_code text.now }
{
    text.iter().all(|byte| byte.is_ascii_graphic())
}
