//! The heads of units, and units that are defined elsewhere.
ghost use Rattle.std.specs.Prelude.{◌≡◌};
ghost use Rattle.std.specs.List.{list_all};
ghost use Rattle.lh_types.specs.TypeTests as spec;
ghost use Rattle.lh_read_pieces.specs.Found.{ReadsAsFound, FindsAs};
ghost use Rattle.lh_read_pieces.specs.LexemeOf.{unit_name_of};
ghost use Rattle.lh_read_phrases.specs.SyntaxOf.{ports_of, item_of};
ghost use Rattle.lh_read_lines.specs.Headers.{is_result_type as result_type, are_values, are_ports, params_at, types_at, func_at, ports_at, unit_at, declare_func_at, declare_unit_at, declare_at, head_at};
ghost use Rattle.lh_unit.specs.declared.inst.UnitKind.TheVariants as kind;

use lh_read_phrases::brackets::last_mark;
use lh_read_phrases::syntax::{LineSyntax, Param, Ports};
use lh_read_phrases::words::Head;
use lh_read_pieces::fault::ScanFault::{self, NotSpelled};
use lh_read_pieces::list::list;
use lh_read_pieces::tokens::{Tokens, UnitNameText};
use lh_read_pieces::types::ty;
use lh_types::list::ListOf;
use lh_types::ty::{Ty, TyKind, TyList};
use std::alloc::Global;

/// An item, where the tokens spell one.
pub type LineAt<'a> = Result<LineSyntax<'a>, ScanFault>;

/// Whether it is a data type, `time` or `void`.
fn is_result_type(ty: &Ty) -> bool
    ensures { result ≡ result_type ty.now }
{
    match ty.kind() {
        TyKind::Signal(_) | TyKind::Pointer(_) => false,
        _ => true,
    }
}

/// Whether each argument is a value.
fn have_values(params: &[Param]) -> bool
    ensures { result ≡ are_values params.now }
{
    params.iter().all(|param| param.ty().is_value_type())
}

/// Whether each argument is a signal.
fn have_signals(params: &[Param]) -> bool
    ensures { result ≡ are_ports params.now }
{
    params.iter().all(|param| param.ty().is_signal())
}

/// Whether each is a data type or `time`.
fn are_value_types(types: &[Ty]) -> bool
    ensures { result ≡ list_all spec.is_value_type types.now }
{
    types.iter().all(|ty| ty.is_value_type())
}

/// Whether each is the type of a signal.
fn are_signals(types: &[Ty]) -> bool
    ensures { result ≡ list_all spec.is_signal types.now }
{
    types.iter().all(|ty| ty.is_signal())
}

/// `(T1 %a1, ..)`, and what follows it.
#[tactic(auto, unfolding(crate::specs::Headers::params_at))]
fn params<'a>(
    alloc: Global,
    tokens: &Tokens<'a>,
) -> Result<(ListOf<Param<'a>>, Tokens<'a>), ScanFault>
    ensures { ReadsAsFound result (params_at tokens.now) }
{
    let rest = tokens.punct(b'(').ok_or(NotSpelled)?;
    let (params, rest) = list(alloc, &rest, b')')?;
    let rest = rest.punct(b')').ok_or(NotSpelled)?;
    Ok((params, rest))
}

/// `(T1, ..)`, and what follows it.
#[tactic(auto, unfolding(crate::specs::Headers::types_at))]
fn types<'a>(alloc: Global, tokens: &Tokens<'a>) -> Result<(TyList, Tokens<'a>), ScanFault>
    ensures { ReadsAsFound result (types_at tokens.now) }
{
    let rest = tokens.punct(b'(').ok_or(NotSpelled)?;
    let (types, rest) = list::<Ty>(alloc, &rest, b')')?;
    let rest = rest.punct(b')').ok_or(NotSpelled)?;
    let types = TyList::from_vec(types.into_vec());
    Ok((types, rest))
}

/// A function, behind its name.
#[tactic(auto, unfolding(crate::specs::Headers::func_at))]
fn func<'a>(alloc: Global, name: UnitNameText<'a>, tokens: &Tokens<'a>) -> LineAt<'a>
    ensures { FindsAs item_of result (func_at (unit_name_of name.entry) tokens.now) }
{
    let (params, rest) = params(alloc, tokens)?;
    let (result, rest) = match ty(alloc, &rest) {
        Ok(read) => read,
        Err(fault) => {
            drop(params);
            return Err(fault);
        }
    };
    if last_mark(&rest, b'{').is_none()
        || !have_values(params.as_slice())
        || !is_result_type(&result)
    {
        drop(params);
        drop(result);
        return Err(NotSpelled);
    }
    Ok(LineSyntax::Func {
        name,
        params,
        result,
    })
}

/// `(S1 %a1, ..) -> (S2 %a2, ..) {`
#[tactic(auto, unfolding(crate::specs::Headers::ports_at))]
fn ports<'a>(alloc: Global, tokens: &Tokens<'a>) -> Result<Ports<'a>, ScanFault>
    ensures { FindsAs ports_of result (ports_at tokens.now) }
{
    let (inputs, rest) = params(alloc, tokens)?;
    let rest = rest.arrow().ok_or(NotSpelled)?;
    let (outputs, rest) = params(alloc, &rest)?;
    if last_mark(&rest, b'{').is_none()
        || !have_signals(inputs.as_slice())
        || !have_signals(outputs.as_slice())
    {
        drop(inputs);
        drop(outputs);
        return Err(NotSpelled);
    }
    Ok(Ports { inputs, outputs })
}

/// A process, behind its name.
#[tactic(auto, unfolding(crate::specs::Headers::unit_at))]
fn process<'a>(alloc: Global, name: UnitNameText<'a>, tokens: &Tokens<'a>) -> LineAt<'a>
    ensures { FindsAs item_of result (unit_at kind.Proc (unit_name_of name.entry) tokens.now) }
{
    let ports = ports(alloc, tokens)?;
    Ok(LineSyntax::Proc { name, ports })
}

/// An entity, behind its name.
#[tactic(auto, unfolding(crate::specs::Headers::unit_at))]
fn entity<'a>(alloc: Global, name: UnitNameText<'a>, tokens: &Tokens<'a>) -> LineAt<'a>
    ensures { FindsAs item_of result (unit_at kind.Entity (unit_name_of name.entry) tokens.now) }
{
    let ports = ports(alloc, tokens)?;
    Ok(LineSyntax::Entity { name, ports })
}

/// A function that is defined elsewhere, behind its parameters.
#[tactic(auto, unfolding(crate::specs::Headers::declare_func_at))]
fn declare_func<'a>(
    alloc: Global,
    name: UnitNameText<'a>,
    params: TyList,
    tokens: &Tokens<'a>,
) -> LineAt<'a>
    ensures { FindsAs item_of result (declare_func_at (unit_name_of name.entry) params tokens.now) }
{
    let (result, rest) = ty(alloc, tokens)?;
    if rest.end().is_none() || !are_value_types(params.as_slice()) || !is_result_type(&result) {
        drop(params);
        drop(result);
        return Err(NotSpelled);
    }
    Ok(LineSyntax::DeclareFunc {
        name,
        params,
        result,
    })
}

/// A process or entity that is defined elsewhere, behind its inputs and the arrow.
#[tactic(auto, unfolding(crate::specs::Headers::declare_unit_at))]
fn declare_unit<'a>(
    alloc: Global,
    name: UnitNameText<'a>,
    inputs: TyList,
    tokens: &Tokens<'a>,
) -> LineAt<'a>
    ensures { FindsAs item_of result (declare_unit_at (unit_name_of name.entry) inputs tokens.now) }
{
    let (outputs, rest) = types(alloc, tokens)?;
    if rest.end().is_none() || !are_signals(inputs.as_slice()) || !are_signals(outputs.as_slice()) {
        drop(inputs);
        drop(outputs);
        return Err(NotSpelled);
    }
    Ok(LineSyntax::DeclareUnit {
        name,
        inputs,
        outputs,
    })
}

/// What is defined elsewhere, behind its name.
#[tactic(auto, unfolding(crate::specs::Headers::declare_at))]
fn declare<'a>(alloc: Global, name: UnitNameText<'a>, tokens: &Tokens<'a>) -> LineAt<'a>
    ensures { FindsAs item_of result (declare_at (unit_name_of name.entry) tokens.now) }
{
    let (inputs, rest) = types(alloc, tokens)?;
    match rest.arrow() {
        Some(rest) => declare_unit(alloc, name, inputs, &rest),
        None => declare_func(alloc, name, inputs, &rest),
    }
}

/// A line that begins so, behind its word.
#[tactic(auto, unfolding(crate::specs::Headers::head_at))]
pub fn headed<'a>(alloc: Global, head: Head, tokens: &Tokens<'a>) -> LineAt<'a>
    ensures { FindsAs item_of result (head_at head tokens.now) }
{
    let (name, rest) = tokens.unit_name().ok_or(NotSpelled)?;
    match head {
        Head::Func => func(alloc, name, &rest),
        Head::Proc => process(alloc, name, &rest),
        Head::Entity => entity(alloc, name, &rest),
        Head::Declare => declare(alloc, name, &rest),
    }
}
