ghost use Rattle.std.specs.Prelude.{◌≡◌, ◌⊎◌, ◌∷◌, ◌++◌, ◌==◌, ◌<◌, [], None, Some, IfErr, IfOk, OnOk, length, map, slice_index_or};
ghost use Rattle.std.specs.Str.{bytes_eq};
ghost use Rattle.vcd_header.specs.Contents.{IsTable};
ghost use Rattle.vcd_header.specs.Declares.{firsts_of};
ghost use Rattle.vcd_header.specs.Header.{clashes, declaration_fault};
ghost use Rattle.vcd_header.specs.Scopes.{dotted, parent};
ghost use Rattle.vcd_header.specs.Tokens.{tok_of};
ghost use Rattle.vcd_header.specs.Variables.{declared_by, one_or_none, size_of};
ghost use Rattle.vcd_header.specs.declared.fault.VcdFault.TheVariants.{Memory};

use crate::contents::contents;
use crate::declaration::{Declaration, declared_by};
use crate::dotted::dotted;
use crate::fault::VcdFault;
use crate::firsts::firsts;
use crate::scope::Scope;
use crate::token::Token;
use crate::variables::Variables;
use bm_base::NoMemory;
use std::alloc::Global;
use std::marker::Model;

/// What a header declares.
#[derive(Drop)]
pub struct Declarations<'a> {
    // the number of the innermost scope that is open
    inmost: Option<usize>,
    // each scope as often as it was opened
    scopes: Vec<Scope<'a>>,
    variables: Variables<'a>,
}

impl<'a> Model for Declarations<'a> {
    ghost use Rattle.vcd_header.specs.Declares.{AreKept, Declared, declared_as};

    ghost Value = { Declared };

    ghost view = { λ it. declared_as it.scopes.items it.inmost it.variables };

    ghost invariant = { λ it. AreKept it.scopes.items it.inmost it.variables };
}

impl<'a> Declarations<'a> {
    ghost use Rattle.vcd_header.specs.Declares.{declared_by_groups};

    /// Nothing is declared yet.
    pub(crate) fn new(alloc: Global) -> Declarations<'a>
        ensures { result ≡ declared_by_groups [] }
    {
        Declarations {
            inmost: None,
            scopes: Vec::new(alloc),
            variables: Variables::new(alloc),
        }
    }

    /// Whether no scope is open.
    pub(crate) fn is_top(&self) -> bool
        ensures { result ≡ (length self.now.path == 0) }
    {
        match self.inmost {
            Some(_) => false,
            None => true,
        }
    }

    /// Opens a scope within the open one.
    pub(crate) fn open(&mut self, name: &'a [u8]) -> Result<(), NoMemory>
        ensures { OnOk result (self.new
            ≡ record self.old {
              path = self.old.path ++ name.now ∷ [];
              scopes = self.old.scopes ++
                  (self.old.path ++ name.now ∷ []) ∷ [];
            }) }
    {
        let number = self.scopes.len();
        self.scopes.push(Scope {
            parent: self.inmost,
            name,
        })?;
        self.inmost = Some(number);
        Ok(())
    }

    /// Closes the open scope.
    pub(crate) fn close(&mut self)
        ensures { self.new ≡ record self.old { path = parent self.old.path } }
    {
        if let Some(number) = self.inmost {
            self.inmost = self.scopes[number].parent;
        }
    }

    /// How often a scope was opened.
    pub(crate) fn scope_count(&self) -> usize
        ensures { result ≡ length self.now.scopes }
    {
        self.scopes.len()
    }

    /// For each opened scope the number of the first that was opened by its path.
    pub(crate) fn firsts(&self, alloc: Global) -> Result<Vec<usize>, NoMemory>
        ensures { IfOk result (λ firsts. firsts.items ≡ firsts_of self.now.scopes) }
    {
        firsts(alloc, &self.scopes)
    }

    /// For each of these numbers the variables of that scope.
    pub(crate) fn contents(
        &self,
        alloc: Global,
        firsts: &[usize],
    ) -> Result<Vec<Vec<Declaration<'a>>>, NoMemory>
        requires { firsts.now ≡ firsts_of self.now.scopes }
        ensures { IfOk result (λ lists. IsTable self.now firsts.now lists.items) }
    {
        Ok(contents(alloc, firsts, self.variables.list())?)
    }

    /// Whether the scope of this number has this name, its own behind those that it stands in, with dots between them.
    pub(crate) fn is_named(
        &self,
        alloc: Global,
        number: usize,
        name: &str,
    ) -> Result<bool, NoMemory>
        requires { number < length self.now.scopes }
        ensures { IfOk result (λ named. named ≡ bytes_eq (dotted (slice_index_or self.now.scopes number [])) name.now) }
    {
        let text = dotted(alloc, &self.scopes, number)?;
        Ok(text.as_slice() == name.as_bytes())
    }

    /// The size with which the code was declared.
    pub fn size_of(&self, code: &[u8]) -> Option<u32>
        ensures { result ≡ size_of self.now.variables code.now }
    {
        self.variables.size_of(code)
    }

    /// Declares what a `$var` at this place with these tokens declares in the open scope.
    pub(crate) fn declare(
        &mut self,
        alloc: Global,
        at: u64,
        tokens: &[Token<'a>],
    ) -> Result<(), VcdFault>
        ensures fits { OnOk result
            (declaration_fault self.old.variables at (declared_by self.old.path (map tok_of tokens.now)) ≡ None) }
        ensures declared { OnOk result
            (self.new ≡ record self.old {
              variables = self.old.variables ++ one_or_none
                  (declared_by self.old.path (map tok_of tokens.now));
            }) }
        ensures fault { IfErr result
            (λ fault. (declaration_fault self.old.variables at (declared_by self.old.path (map tok_of tokens.now))
            ≡ Some fault) ⊎ (fault ≡ Memory)) }
    {
        let Some(declaration) = declared_by(alloc, self.inmost, tokens)? else {
            return Err(VcdFault::Token { at });
        };
        if clashes(self.variables.size_of(declaration.code), declaration.size) {
            return Err(VcdFault::BadCode { at });
        }
        self.variables.add(declaration)?;
        Ok(())
    }
}

// Whether the code was declared with another size.
fn clashes(known: Option<u32>, size: u32) -> bool
    ensures { result ≡ clashes known size }
{
    match known {
        Some(other) => other != size,
        None => false,
    }
}
