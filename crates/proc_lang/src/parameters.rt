//! The parameters of a procedure.

ghost use Rattle.std.specs.Prelude.{◌≡◌, map, nat_abs, IfOk};
ghost use Rattle.std.specs.List.{list_any, list_all};
ghost use Rattle.volt_catalog.specs.Names.{same_name, differ};
ghost use Rattle.proc_lang.specs.Parameters as spec;

use crate::fault::{ProcFault, worse_if};
use ddl_parse::{ParameterText, TypeName};
use sql_resolve::is_same;
use sqlite_items::Items;
use std::alloc::{AllocError, Global};
use volt_catalog::ParamTypes;
use volt_value::{Class, ColType, Text};

/// How many parameters there may be.
pub(crate) const MOST_PARAMETERS: usize = 32;

/// The greatest length of a VARCHAR, in bytes.
const MOST_TEXT: u64 = 2048;

/// Whether a VARCHAR may have a length.
fn is_length(length: u64) -> bool
    ensures { result ≡ spec.is_length length }
{
    1 <= length && length <= MOST_TEXT
}

/// The type of a text. A length that it may not have is noted elsewhere.
fn varchar(length: u64) -> ColType
    ensures { result ≡ spec.varchar length }
{
    if is_length(length) {
        ColType::Varchar(length as u16)
    } else {
        ColType::Varchar(0)
    }
}

fn kind_of(written: TypeName) -> ColType
    ensures { result ≡ spec.kind_of written }
{
    match written {
        TypeName::Tinyint => ColType::Tiny,
        TypeName::Smallint => ColType::Small,
        TypeName::Integer => ColType::Integer,
        TypeName::Bigint => ColType::Big,
        TypeName::Varchar(length) => varchar(length.unsigned_abs()),
    }
}

/// Whether a VARCHAR has a length that it may have.
fn has_length(written: TypeName) -> bool
    ensures { result ≡ spec.has_length written }
{
    match written {
        TypeName::Varchar(length) => is_length(length.unsigned_abs()),
        _ => true,
    }
}

/// The types of parameters.
pub(crate) fn kinds_of(
    alloc: Global,
    parameters: &[ParameterText],
) -> Result<ParamTypes, AllocError>
    ensures { IfOk result (λ kinds. kinds ≡ spec.kinds_of parameters.now) }
{
    let mut kinds = Vec::new(alloc);
    for parameter in parameters {
        kinds.push(kind_of(parameter.kind))?;
    }
    Ok(ParamTypes::from_vec(kinds))
}

/// The names and the classes of parameters.
pub(crate) fn heads_of(
    alloc: Global,
    parameters: &[ParameterText],
) -> Result<Items<(Text, Class)>, AllocError>
    ensures { IfOk result (λ heads. heads ≡ spec.heads_of parameters.now) }
{
    let mut heads = Items::new(alloc);
    for parameter in parameters {
        let name = Text::of(alloc, parameter.name.as_str())?;
        heads.push((name, kind_of(parameter.kind).class()))?;
    }
    Ok(heads)
}

/// Whether a name is among those of parameters.
fn is_named(name: &Text, parameters: &[ParameterText]) -> bool
    ensures { result ≡ list_any (λ parameter. same_name name.now parameter.name) parameters.now }
{
    parameters
        .iter()
        .any(|parameter| is_same(name, &parameter.name))
}

/// Whether no two parameters have one name.
fn have_names_of_their_own(parameters: &[ParameterText]) -> bool
    ensures { result ≡ differ (map (λ parameter. parameter.name) parameters.now) }
{
    for place in 0..parameters.len() {
        if is_named(&parameters[place].name, &parameters[place + 1..]) {
            return false;
        }
    }
    true
}

/// Whether each VARCHAR has a length that it may have.
fn have_lengths(parameters: &[ParameterText]) -> bool
    ensures { result ≡ list_all (λ parameter. spec.has_length parameter.kind) parameters.now }
{
    parameters
        .iter()
        .all(|parameter| has_length(parameter.kind))
}

/// Whether there are too many parameters, or one is too long.
fn pass_a_limit(parameters: &[ParameterText]) -> bool
    ensures { result ≡ spec.pass_a_limit parameters.now }
{
    if parameters.len() > MOST_PARAMETERS {
        return true;
    }
    !have_lengths(parameters)
}

/// Why parameters can't be those of a program.
pub(crate) fn fault_of(parameters: &[ParameterText]) -> Option<ProcFault>
    ensures { result ≡ spec.fault_of parameters.now }
{
    let repeats = worse_if(
        !have_names_of_their_own(parameters),
        ProcFault::DuplicateName,
        None,
    );
    worse_if(pass_a_limit(parameters), ProcFault::too_many(), repeats)
}

/// The type of a parameter that has a class alone.
fn kind_for(class: Class) -> ColType
    ensures { result ≡ spec.kind_for class }
{
    match class {
        Class::Int => ColType::Big,
        Class::Text => ColType::Varchar(2048),
    }
}

/// The types of parameters that have classes alone.
pub(crate) fn kinds_for(alloc: Global, classes: &[Class]) -> Result<ParamTypes, AllocError>
    ensures { IfOk result (λ kinds. kinds ≡ map spec.kind_for classes.now) }
{
    let mut kinds = Vec::new(alloc);
    for class in classes {
        kinds.push(kind_for(*class))?;
    }
    Ok(ParamTypes::from_vec(kinds))
}
