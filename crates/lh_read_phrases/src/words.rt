//! The words of the language, in tables: what each begins or stands for.
ghost use Rattle.std.specs.Prelude.{◌≡◌, false, nat_eq, map};
ghost use lib.Pointwise.{pointwise};
ghost use Rattle.lh_read_phrases.specs.Words.{found, head_of, form_of, mode_of};

use lh_types::op::Op;
use lh_unit::inst::Mode;

/// What a word outside of a unit begins.
#[derive(Clone, Copy)]
pub enum Head {
    /// `func @n (V1 %a1) R {`
    Func,
    /// `proc @n (S1 %a1) -> (S2 %a2) {`
    Proc,
    /// `entity @n (S1 %a1) -> (S2 %a2) {`
    Entity,
    /// `declare @n (V1) R` and `declare @n (S1) -> (S2)`
    Declare,
}

/// How the operands of an operation are written.
#[derive(Clone, Copy)]
pub enum Columns {
    /// `D %a`
    One,
    /// `D %a, %b`
    Two,
    /// `D %b, ?%h, ?%n`
    Shift,
}

/// What a word of an instruction begins.
#[derive(Clone, Copy)]
pub enum Form {
    /// `const iN k` and `const time L`
    Const,
    /// An operation: its operands, and behind them the numbers that it has. The row has 0 in place of each number.
    Op(Op, Columns),
    /// `var V %a`
    Var,
    /// `ld V* %p`
    Ld,
    /// `st V* %p, %v`
    St,
    /// `sig D %a`
    Sig,
    /// `prb S %s`
    Prb,
    /// `drv S %s, %v after %d if %c`
    Drv,
    /// `reg S %q, [%v, mode %t if %g after %d]`
    Reg,
    /// `inst @u (?%a) -> (?%b)`
    Child,
    /// `call R @f (?%a)`
    Call,
    /// `phi V [%v, %b]`
    Phi,
    /// `br %b` and `br %c, %f, %t`
    Br,
    /// `wait %b for %d, %s1, %s2`
    Wait,
    /// `halt`
    Halt,
    /// `ret` and `ret V %v`
    Ret,
}

/// The words that stand outside of units.
pub const HEADS: [(&[u8], Head); 4] = [
    (b"func", Head::Func),
    (b"proc", Head::Proc),
    (b"entity", Head::Entity),
    (b"declare", Head::Declare),
];

/// The words of instructions. A word is looked for from the front, so those that programs have most of stand first.
pub const FORMS: [(&[u8], Form); 48] = [
    (b"const", Form::Const),
    (b"prb", Form::Prb),
    (b"drv", Form::Drv),
    (b"br", Form::Br),
    (b"wait", Form::Wait),
    (b"add", Form::Op(Op::Add, Columns::Two)),
    (b"sub", Form::Op(Op::Sub, Columns::Two)),
    (b"and", Form::Op(Op::And, Columns::Two)),
    (b"or", Form::Op(Op::Or, Columns::Two)),
    (b"xor", Form::Op(Op::Xor, Columns::Two)),
    (b"not", Form::Op(Op::Not, Columns::One)),
    (b"eq", Form::Op(Op::Eq, Columns::Two)),
    (b"neq", Form::Op(Op::Neq, Columns::Two)),
    (b"neg", Form::Op(Op::Neg, Columns::One)),
    (b"umul", Form::Op(Op::Umul, Columns::Two)),
    (b"mul", Form::Op(Op::Umul, Columns::Two)),
    (b"smul", Form::Op(Op::Smul, Columns::Two)),
    (b"udiv", Form::Op(Op::Udiv, Columns::Two)),
    (b"sdiv", Form::Op(Op::Sdiv, Columns::Two)),
    (b"umod", Form::Op(Op::Umod, Columns::Two)),
    (b"smod", Form::Op(Op::Smod, Columns::Two)),
    (b"urem", Form::Op(Op::Urem, Columns::Two)),
    (b"srem", Form::Op(Op::Srem, Columns::Two)),
    (b"slt", Form::Op(Op::Slt, Columns::Two)),
    (b"sgt", Form::Op(Op::Sgt, Columns::Two)),
    (b"sle", Form::Op(Op::Sle, Columns::Two)),
    (b"sge", Form::Op(Op::Sge, Columns::Two)),
    (b"ult", Form::Op(Op::Ult, Columns::Two)),
    (b"ugt", Form::Op(Op::Ugt, Columns::Two)),
    (b"ule", Form::Op(Op::Ule, Columns::Two)),
    (b"uge", Form::Op(Op::Uge, Columns::Two)),
    (b"shl", Form::Op(Op::Shl, Columns::Shift)),
    (b"shr", Form::Op(Op::Shr, Columns::Shift)),
    (b"mux", Form::Op(Op::Mux, Columns::Two)),
    (b"extf", Form::Op(Op::Extf(0), Columns::One)),
    (b"exts", Form::Op(Op::Exts { at: 0, len: 0 }, Columns::One)),
    (b"insf", Form::Op(Op::Insf(0), Columns::Two)),
    (b"inss", Form::Op(Op::Inss { at: 0, len: 0 }, Columns::Two)),
    (b"var", Form::Var),
    (b"ld", Form::Ld),
    (b"st", Form::St),
    (b"sig", Form::Sig),
    (b"reg", Form::Reg),
    (b"inst", Form::Child),
    (b"call", Form::Call),
    (b"phi", Form::Phi),
    (b"halt", Form::Halt),
    (b"ret", Form::Ret),
];

/// The modes of registers.
pub const MODES: [(&[u8], Mode); 5] = [
    (b"rise", Mode::Rise),
    (b"fall", Mode::Fall),
    (b"both", Mode::Both),
    (b"high", Mode::High),
    (b"low", Mode::Low),
];

/// Whether two texts may be one. Most words of a table differ from another in their lengths or first bytes, here without a call.
#[tactic(auto, using(crate::proofs::Apart::apart))]
fn may_be(a: &[u8], b: &[u8]) -> bool
    ensures { result ≡ false → pointwise nat_eq a.now b.now ≡ false }
{
    if a.len() != b.len() {
        return false;
    }
    match (a, b) {
        ([x, ..], [y, ..]) => *x == *y,
        _ => true,
    }
}

/// What stands beside a word in a table.
fn find<T: Copy>(mut table: &[(&[u8], T)], word: &[u8]) -> Option<T>
    ensures { result ≡ found (map (λ r. (r.0.now, r.1)) table.entry.now) word.now }
{
    while let [row, rest @ ..] = table {
        if may_be(row.0, word) && row.0 == word {
            return Some(row.1);
        }
        table = rest;
    }
    None
}

/// What a word outside of a unit begins, if it begins anything.
pub fn find_head(word: &[u8]) -> Option<Head>
    ensures { result ≡ head_of word.now }
{
    find(&HEADS, word)
}

/// What a word of an instruction begins, if it begins any.
pub fn find_form(word: &[u8]) -> Option<Form>
    ensures { result ≡ form_of word.now }
{
    find(&FORMS, word)
}

/// The mode of a register that a word says.
pub fn find_mode(word: &[u8]) -> Option<Mode>
    ensures { result ≡ mode_of word.now }
{
    find(&MODES, word)
}
