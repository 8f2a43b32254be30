//! The instructions, behind `%r = ` where that stands.
ghost use Rattle.std.specs.Prelude.{◌≡◌, option_map};
ghost use Rattle.lh_read_pieces.specs.Found.{ReadsAsFound, FindsAs};
ghost use Rattle.lh_types.specs.ValueOf.{datum_of};
ghost use Rattle.lh_read_phrases.specs.SyntaxOf.{inst_of};
ghost use Rattle.lh_read_lines.specs.Insts.{constant_at, const_at, last_typed_at, last_local_at, var_at, ld_at, sig_at, prb_at, target_at, st_at, after_at, if_after_at, delay_at, drv_at, reg_at, operands_at, outputs_at, child_at, call_at, phi_at, branch_at, br_at, wait_at, halt_at, ret_at, form_at, worded_at, inst_at};

use lh_read_phrases::brackets::{bracket, tuple};
use lh_read_phrases::operands::{OperandsAt, maybe, typed};
use lh_read_phrases::operations::word_op;
use lh_read_phrases::syntax::{InstSyntax, Operand};
use lh_read_phrases::words::{Form, find_form};
use lh_read_pieces::fault::ScanFault::{self, NotSpelled};
use lh_read_pieces::list::{behind, list, parts};
use lh_read_pieces::numbers::integer;
use lh_read_pieces::times::time;
use lh_read_pieces::tokens::{Lex, NameText, Tokens};
use lh_read_pieces::types::ty;
use lh_types::ty::{Ty, TyKind};
use lh_types::val::Val;
use std::alloc::Global;

/// An instruction, where the tokens spell one.
pub type InstAt<'a> = Result<InstSyntax<'a>, ScanFault>;

/// The constant of this type that ends the line.
fn constant(of: &Ty, tokens: &Tokens) -> Option<Val>
    ensures { option_map datum_of result ≡ constant_at of.now tokens.now }
{
    match of.kind() {
        TyKind::Int(width) => {
            let bits = integer(width, tokens)?;
            Some(Val::Int { width, bits })
        }
        TyKind::Time => Some(Val::Time(time(tokens)?)),
        _ => None,
    }
}

/// Behind `const`.
#[tactic(auto, unfolding(crate::specs::Insts::const_at))]
fn const_inst<'a>(alloc: Global, tokens: &Tokens<'a>) -> InstAt<'a>
    ensures { FindsAs inst_of result (const_at tokens.now) }
{
    let (of, rest) = ty(alloc, tokens)?;
    let value = constant(&of, &rest).ok_or(NotSpelled)?;
    Ok(InstSyntax::Const(value))
}

/// `T %a` at the end of the line.
#[tactic(auto, unfolding(crate::specs::Insts::last_typed_at))]
fn last_typed<'a>(alloc: Global, tokens: &Tokens<'a>) -> Result<Operand<'a>, ScanFault>
    ensures { ReadsAsFound result (last_typed_at tokens.now) }
{
    let (operand, rest) = typed(alloc, tokens)?;
    rest.end().ok_or(NotSpelled)?;
    Ok(operand)
}

/// `%a` at the end of the line.
#[tactic(auto, unfolding(crate::specs::Insts::last_local_at))]
fn last_local<'a>(tokens: &Tokens<'a>) -> Option<NameText<'a>>
    ensures { result ≡ last_local_at tokens.now }
{
    let (name, rest) = tokens.local()?;
    rest.end()?;
    Some(name)
}

/// Behind `var`.
#[tactic(auto, unfolding(crate::specs::Insts::var_at))]
fn var<'a>(alloc: Global, tokens: &Tokens<'a>) -> InstAt<'a>
    ensures { FindsAs inst_of result (var_at tokens.now) }
{
    let operand = last_typed(alloc, tokens)?;
    Ok(InstSyntax::Var(operand))
}

/// Behind `ld`.
#[tactic(auto, unfolding(crate::specs::Insts::ld_at))]
fn ld<'a>(alloc: Global, tokens: &Tokens<'a>) -> InstAt<'a>
    ensures { FindsAs inst_of result (ld_at tokens.now) }
{
    let operand = last_typed(alloc, tokens)?;
    Ok(InstSyntax::Ld(operand))
}

/// Behind `sig`.
#[tactic(auto, unfolding(crate::specs::Insts::sig_at))]
fn sig<'a>(alloc: Global, tokens: &Tokens<'a>) -> InstAt<'a>
    ensures { FindsAs inst_of result (sig_at tokens.now) }
{
    let operand = last_typed(alloc, tokens)?;
    Ok(InstSyntax::Sig(operand))
}

/// Behind `prb`.
#[tactic(auto, unfolding(crate::specs::Insts::prb_at))]
fn prb<'a>(alloc: Global, tokens: &Tokens<'a>) -> InstAt<'a>
    ensures { FindsAs inst_of result (prb_at tokens.now) }
{
    let operand = last_typed(alloc, tokens)?;
    Ok(InstSyntax::Prb(operand))
}

/// `T %a,`, and what follows it.
#[tactic(auto, unfolding(crate::specs::Insts::target_at))]
fn target<'a>(alloc: Global, tokens: &Tokens<'a>) -> Result<(Operand<'a>, Tokens<'a>), ScanFault>
    ensures { ReadsAsFound result (target_at tokens.now) }
{
    let (operand, rest) = typed(alloc, tokens)?;
    let rest = rest.punct(b',').ok_or(NotSpelled)?;
    Ok((operand, rest))
}

/// Behind `st`.
#[tactic(auto, unfolding(crate::specs::Insts::st_at))]
fn st<'a>(alloc: Global, tokens: &Tokens<'a>) -> InstAt<'a>
    ensures { FindsAs inst_of result (st_at tokens.now) }
{
    let (to, rest) = target(alloc, tokens)?;
    let value = last_local(&rest).ok_or(NotSpelled)?;
    Ok(InstSyntax::St { to, value })
}

/// `%d if %c`, where `if %c` may be absent.
#[tactic(auto, unfolding(crate::specs::Insts::after_at))]
fn after<'a>(tokens: &Tokens<'a>) -> Option<(NameText<'a>, Option<NameText<'a>>)>
    ensures { result ≡ after_at tokens.now }
{
    let (after, rest) = tokens.local()?;
    let (cond, rest) = maybe(b"if", &rest)?;
    rest.end()?;
    Some((after, cond))
}

/// `if %c after %d`
#[tactic(auto, unfolding(crate::specs::Insts::if_after_at))]
fn if_after<'a>(tokens: &Tokens<'a>) -> Option<(NameText<'a>, Option<NameText<'a>>)>
    ensures { result ≡ if_after_at tokens.now }
{
    let (cond, rest) = tokens.word(b"if")?.local()?;
    let rest = rest.word(b"after")?;
    let after = last_local(&rest)?;
    Some((after, Some(cond)))
}

/// The delay and the condition of a drive: `after %d if %c`, `, %d if %c` or `if %c after %d`.
#[tactic(auto, unfolding(crate::specs::Insts::delay_at))]
fn delay<'a>(tokens: &Tokens<'a>) -> Option<(NameText<'a>, Option<NameText<'a>>)>
    ensures { result ≡ delay_at tokens.now }
{
    if let Some(rest) = tokens.word(b"after") {
        return after(&rest);
    }
    if let Some(rest) = tokens.punct(b',') {
        return after(&rest);
    }
    if_after(tokens)
}

/// Behind `drv`.
#[tactic(auto, unfolding(crate::specs::Insts::drv_at))]
fn drv<'a>(alloc: Global, tokens: &Tokens<'a>) -> InstAt<'a>
    ensures { FindsAs inst_of result (drv_at tokens.now) }
{
    let (to, rest) = target(alloc, tokens)?;
    let Some((value, rest)) = rest.local() else {
        drop(to);
        return Err(NotSpelled);
    };
    let Some((after, cond)) = delay(&rest) else {
        drop(to);
        return Err(NotSpelled);
    };
    Ok(InstSyntax::Drv {
        to,
        value,
        after,
        cond,
    })
}

/// Behind `reg`.
#[tactic(auto, unfolding(crate::specs::Insts::reg_at))]
fn reg<'a>(alloc: Global, tokens: &Tokens<'a>) -> InstAt<'a>
    ensures { FindsAs inst_of result (reg_at tokens.now) }
{
    let (to, rest) = target(alloc, tokens)?;
    let (triggers, rest) = parts(alloc, &rest)?;
    rest.end().ok_or(NotSpelled)?;
    Ok(InstSyntax::Reg { to, triggers })
}

/// Operands in parentheses, and what follows them.
#[tactic(auto, unfolding(crate::specs::Insts::operands_at))]
fn operands<'a>(alloc: Global, tokens: &Tokens<'a>) -> OperandsAt<'a>
    ensures { ReadsAsFound result (operands_at tokens.now) }
{
    let rest = tokens.punct(b'(').ok_or(NotSpelled)?;
    let (operands, rest) = list(alloc, &rest, b')')?;
    let rest = rest.punct(b')').ok_or(NotSpelled)?;
    Ok((operands, rest))
}

/// Operands in parentheses behind an arrow, and what follows them.
#[tactic(auto, unfolding(crate::specs::Insts::outputs_at))]
fn outputs<'a>(alloc: Global, tokens: &Tokens<'a>) -> OperandsAt<'a>
    ensures { ReadsAsFound result (outputs_at tokens.now) }
{
    let rest = tokens.arrow().ok_or(NotSpelled)?;
    operands(alloc, &rest)
}

/// Behind `inst`.
#[tactic(auto, unfolding(crate::specs::Insts::child_at, crate::specs::Insts::outputs_at))]
fn child<'a>(alloc: Global, tokens: &Tokens<'a>) -> InstAt<'a>
    ensures { FindsAs inst_of result (child_at tokens.now) }
{
    let (unit, rest) = tokens.unit_name().ok_or(NotSpelled)?;
    let (inputs, rest) = operands(alloc, &rest)?;
    let (outputs, rest) = match outputs(alloc, &rest) {
        Ok(read) => read,
        Err(fault) => {
            drop(inputs);
            return Err(fault);
        }
    };
    if rest.end().is_none() {
        drop(inputs);
        drop(outputs);
        return Err(NotSpelled);
    }
    Ok(InstSyntax::Child {
        unit,
        inputs,
        outputs,
    })
}

/// Behind `call`.
#[tactic(auto, unfolding(crate::specs::Insts::call_at))]
fn call<'a>(alloc: Global, tokens: &Tokens<'a>) -> InstAt<'a>
    ensures { FindsAs inst_of result (call_at tokens.now) }
{
    let (result, rest) = ty(alloc, tokens)?;
    let (unit, rest) = rest.unit_name().ok_or(NotSpelled)?;
    let (args, rest) = operands(alloc, &rest)?;
    if rest.end().is_none() {
        drop(args);
        return Err(NotSpelled);
    }
    Ok(InstSyntax::Call { unit, result, args })
}

/// Behind `phi`.
#[tactic(auto, unfolding(crate::specs::Insts::phi_at))]
fn phi<'a>(alloc: Global, tokens: &Tokens<'a>) -> InstAt<'a>
    ensures { FindsAs inst_of result (phi_at tokens.now) }
{
    let (ty, rest) = ty(alloc, tokens)?;
    let (edges, rest) = parts(alloc, &rest)?;
    rest.end().ok_or(NotSpelled)?;
    Ok(InstSyntax::Phi { ty, edges })
}

/// `, %f, %t`, behind a condition.
#[tactic(auto, unfolding(crate::specs::Insts::branch_at))]
fn branch<'a>(cond: NameText<'a>, tokens: &Tokens<'a>) -> Option<InstSyntax<'a>>
    ensures { option_map inst_of result ≡ branch_at cond.entry tokens.now }
{
    let (zero, rest) = tokens.punct(b',')?.local()?;
    let rest = rest.punct(b',')?;
    let one = last_local(&rest)?;
    Some(InstSyntax::Branch { cond, zero, one })
}

/// Behind `br`.
#[tactic(auto, unfolding(crate::specs::Insts::br_at))]
fn br<'a>(tokens: &Tokens<'a>) -> Option<InstSyntax<'a>>
    ensures { option_map inst_of result ≡ br_at tokens.now }
{
    let (name, rest) = tokens.local()?;
    if rest.end().is_some() {
        return Some(InstSyntax::Br(name));
    }
    branch(name, &rest)
}

/// Behind `wait`.
#[tactic(auto, unfolding(crate::specs::Insts::wait_at))]
fn wait<'a>(alloc: Global, tokens: &Tokens<'a>) -> InstAt<'a>
    ensures { FindsAs inst_of result (wait_at tokens.now) }
{
    let (to, rest) = tokens.local().ok_or(NotSpelled)?;
    let (after, rest) = maybe(b"for", &rest).ok_or(NotSpelled)?;
    let (signals, rest) = behind(alloc, &rest)?;
    rest.end().ok_or(NotSpelled)?;
    Ok(InstSyntax::Wait { to, after, signals })
}

/// Behind `halt`.
#[tactic(auto, unfolding(crate::specs::Insts::halt_at))]
fn halt<'a>(tokens: &Tokens) -> Option<InstSyntax<'a>>
    ensures { option_map inst_of result ≡ halt_at tokens.now }
{
    tokens.end()?;
    Some(InstSyntax::Halt)
}

/// Behind `ret`.
#[tactic(auto, unfolding(crate::specs::Insts::ret_at))]
fn ret<'a>(alloc: Global, tokens: &Tokens<'a>) -> InstAt<'a>
    ensures { FindsAs inst_of result (ret_at tokens.now) }
{
    if tokens.end().is_some() {
        return Ok(InstSyntax::Ret(None));
    }
    let value = last_typed(alloc, tokens)?;
    Ok(InstSyntax::Ret(Some(value)))
}

/// What a word begins, behind it.
fn formed<'a>(alloc: Global, form: Form, tokens: &Tokens<'a>) -> InstAt<'a>
    ensures { FindsAs inst_of result (form_at form tokens.now) }
{
    match form {
        Form::Const => const_inst(alloc, tokens),
        Form::Op(op, columns) => word_op(alloc, op, columns, tokens),
        Form::Var => var(alloc, tokens),
        Form::Ld => ld(alloc, tokens),
        Form::St => st(alloc, tokens),
        Form::Sig => sig(alloc, tokens),
        Form::Prb => prb(alloc, tokens),
        Form::Drv => drv(alloc, tokens),
        Form::Reg => reg(alloc, tokens),
        Form::Child => child(alloc, tokens),
        Form::Call => call(alloc, tokens),
        Form::Phi => phi(alloc, tokens),
        Form::Br => br(tokens).ok_or(NotSpelled),
        Form::Wait => wait(alloc, tokens),
        Form::Halt => halt(tokens).ok_or(NotSpelled),
        Form::Ret => ret(alloc, tokens),
    }
}

/// An instruction that begins with this word, behind it.
// Inline, so that the instruction is not copied once more on its way to the line.
#[inline(always)]
#[tactic(auto, unfolding(crate::specs::Insts::worded_at))]
pub fn worded<'a>(alloc: Global, word: &[u8], tokens: &Tokens<'a>) -> InstAt<'a>
    ensures { FindsAs inst_of result (worded_at word.now tokens.now) }
{
    let form = find_form(word).ok_or(NotSpelled)?;
    formed(alloc, form, tokens)
}

/// The instruction that the tokens spell.
#[tactic(auto, unfolding(crate::specs::Insts::inst_at, crate::specs::Insts::marked_at))]
pub fn inst<'a>(alloc: Global, tokens: &Tokens<'a>) -> InstAt<'a>
    ensures { FindsAs inst_of result (inst_at tokens.now) }
{
    let (first, rest) = tokens.first().ok_or(NotSpelled)?;
    match first {
        Lex::Word(word) => worded(alloc, word, &rest),
        Lex::Punct(b'[') => bracket(alloc, &rest),
        Lex::Punct(b'{') => tuple(alloc, &rest),
        _ => Err(NotSpelled),
    }
}
