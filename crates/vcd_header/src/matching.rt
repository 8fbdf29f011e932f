ghost use Rattle.std.specs.Prelude.{◌≡◌, ◌⊎◌, ◌<◌, Err, IfErr, IfOk, IfSome, Ok, length, map, option_copied, slice_index_or, [], None, Some};
ghost use Rattle.std.specs.List.{find};
ghost use Rattle.std.specs.Option.{option_map};
ghost use Rattle.std.specs.Str.{bytes_eq};
ghost use Rattle.vcd_header.specs.Declares.{matched_in};
ghost use Rattle.vcd_header.specs.Scopes.{dotted};
ghost use Rattle.vcd_header.specs.Bits.{source_shown, wanted_of};
ghost use Rattle.vcd_header.specs.Matching.{gives_all, scope_for, sources_of, within};
ghost use Rattle.vcd_header.specs.declared.fault.VcdFault.TheVariants.{Memory};

use crate::declarations::Declarations;
use crate::fault::VcdFault;
use crate::scope_table::ScopeTable;
use crate::source::BitSource;
use crate::wanted::{WantedBit, wanted};
use bm_base::{Name, NoMemory};
use std::alloc::Global;
use trace_rows::Labels;

/// Where the clock and the bits of the rows come from: the variables of the scope of this name or, without one, of the
/// first scope that gives them all.
pub fn matched<'a>(
    alloc: Global,
    declarations: &Declarations<'a>,
    labels: &Labels,
    scope: Option<&str>,
) -> Result<Vec<BitSource<'a>>, VcdFault>
    ensures ok { IfOk result (λ sources. matched_in declarations.now labels.now (option_copied scope.entry)
        ≡ Ok (map source_shown sources.items)) }
    ensures err { IfErr result
        (λ fault. (matched_in declarations.now labels.now (option_copied scope.entry) ≡ Err fault) ⊎ (fault ≡ Memory)) }
{
    let bits = wanted(alloc, labels)?;
    let table = ScopeTable::new(alloc, declarations)?;
    match scope_for(alloc, &table, &bits, scope)? {
        Some(number) => sources_in(alloc, &table, number, &bits),
        None => Err(VcdFault::NoScope),
    }
}

// The scope, by its number.
fn scope_for(
    alloc: Global,
    table: &ScopeTable,
    bits: &[WantedBit],
    scope: Option<&str>,
) -> Result<Option<usize>, NoMemory>
    ensures scope { IfOk result
        (λ number. option_map (λ number. slice_index_or table.now.scopes number []) number
        ≡ scope_for table.now.scopes table.now.variables (map wanted_of bits.now)
        (option_copied scope.entry)) }
    ensures there { IfOk result (λ number. IfSome number (λ number. number < length table.now.scopes)) }
{
    match scope {
        Some(name) => named_scope(alloc, table, name),
        None => Ok(full_scope(table, bits)),
    }
}

// The first opened scope of this name, by its number.
fn named_scope(alloc: Global, table: &ScopeTable, name: &str) -> Result<Option<usize>, NoMemory>
    ensures scope { IfOk result
        (λ number. option_map (λ number. slice_index_or table.now.scopes number []) number
        ≡ find (λ path. bytes_eq (dotted path) name.now) table.now.scopes) }
    ensures there { IfOk result (λ number. IfSome number (λ number. number < length table.now.scopes)) }
{
    for number in 0..table.scope_count() {
        if table.is_named(alloc, number, name)? {
            return Ok(Some(number));
        }
    }
    Ok(None)
}

// The first opened scope that directly gives every bit, by its number.
fn full_scope(table: &ScopeTable, bits: &[WantedBit]) -> Option<usize>
    ensures scope { option_map (λ number. slice_index_or table.now.scopes number []) result
        ≡ find (gives_all table.now.variables (map wanted_of bits.now)) table.now.scopes }
    ensures there { IfSome result (λ number. number < length table.now.scopes) }
{
    for number in 0..table.scope_count() {
        if table.is_first(number) && gives_all(table, bits, number) {
            return Some(number);
        }
    }
    None
}

// Whether the scope directly gives every bit.
fn gives_all(table: &ScopeTable, bits: &[WantedBit], number: usize) -> bool
    requires { number < length table.now.scopes }
    ensures { result ≡ gives_all table.now.variables (map wanted_of bits.now)
        (slice_index_or table.now.scopes number []) }
{
    for bit in bits {
        match table.source_of(number, bit) {
            Some(_) => {}
            None => return false,
        }
    }
    true
}

// Where the bits come from, if the scope of this number directly gives them all.
fn sources_in<'a>(
    alloc: Global,
    table: &ScopeTable<'_, 'a>,
    number: usize,
    bits: &[WantedBit],
) -> Result<Vec<BitSource<'a>>, VcdFault>
    requires { number < length table.now.scopes }
    ensures ok { IfOk result (λ sources.
        sources_of (within (slice_index_or table.now.scopes number []) table.now.variables)
        (map wanted_of bits.now) ≡ Ok (map source_shown sources.items)) }
    ensures err { IfErr result (λ fault.
        (sources_of (within (slice_index_or table.now.scopes number []) table.now.variables)
        (map wanted_of bits.now) ≡ Err fault) ⊎ (fault ≡ Memory)) }
{
    let mut sources = Vec::new(alloc);
    for bit in bits {
        match table.source_of(number, bit) {
            Some(source) => sources.push(source)?,
            None => {
                let name = Name::new(alloc, bit.name)?;
                return Err(VcdFault::NoSignal { name });
            }
        }
    }
    Ok(sources)
}
