//! Types.
#![tactic(auto, using(crate::proofs::Joined::steps))]

ghost use Rattle.std.specs.Prelude.{◌≡◌, ◌++◌};
ghost use Rattle.lh_text_buffer.specs.Writing.{Writes};
ghost use Rattle.lh_types.specs.Types.{row_of};
ghost use Rattle.lh_unit.specs.Pieces.{render};
ghost use Rattle.lh_unit.specs.CanonTypes.{type_pieces, row_pieces};

use lh_text_buffer::Text;
use lh_types::ty::{Ty, TyKind};

/// Writes a type.

#[cycle(put_type)]
pub fn put_type(out: &mut Text, t: &Ty)
    ensures { Writes out.old out.new (render (type_pieces t.now)) }
{
    match t.kind() {
        TyKind::Int(width) => {
            out.put(b"i");
            out.put_number(u64::from(width));
        }
        TyKind::Time => out.put(b"time"),
        TyKind::Void => out.put(b"void"),
        TyKind::Array(len, of) => {
            out.put(b"[");
            out.put_number(u64::from(len));
            out.put(b" x ");
            put_type(out, of);
            out.put(b"]");
        }
        TyKind::Tuple(fields) => {
            out.put(b"{");
            put_types(out, fields);
            out.put(b"}");
        }
        TyKind::Signal(of) => {
            put_type(out, of);
            out.put(b"$");
        }
        TyKind::Pointer(of) => {
            put_type(out, of);
            out.put(b"*");
        }
    }
}

/// Writes types, with a comma and a space between them.

#[cycle(put_type)]
pub fn put_types(out: &mut Text, types: &[Ty])
    ensures { Writes out.old out.new (render (row_pieces (row_of types.now))) }
{
    let mut before: &[u8] = b"";
    for t in types {
        out.put(before);
        put_type(out, t);
        before = b", ";
    }
}
