//! Types as trees, with the limits of the language kept by every type.
ghost use Rattle.std.specs.Prelude.{◌≡◌, ◌<◌, ◌^◌, ◌+◌, [], ◌∷◌, ◌++◌, length, nat_lt, ◌||◌, ◌≤◌, IfOk, IfErr, OnOk, OnErr, IsTrue};
ghost use Rattle.lh_types.specs.Types.{int_type, time_type, void_type, array_type, tuple_type, signal_type, pointer_type, IsData, AreData, IsLimited, bit_count, bit_count_row, depth_of, depth_of_row, row_of, same_type, same_row};
ghost use Rattle.lh_types.specs.Kind.{type_of_kind};
ghost use Rattle.lh_types.specs.TypeOf.{type_of_node};
ghost use Rattle.lh_types.specs.Faults.{is_data, all_data, int_fault, array_fault, tuple_fault, signal_fault, pointer_fault, made, MakesType};
ghost use Rattle.lh_types.specs.declared.ty.TyFault.TheVariants.{OutOfMemory};

use crate::memory::NoMemory;
use std::alloc::Global;
use std::marker::Model;
use std::slice;
use thiserror::Error;

/// Why there is no such type: the first that holds, in the order `WidthRange`, `Empty`, `WrongPart`,
/// `TooDeep`, `TooManyBits`, and after them `OutOfMemory`.
#[derive(Clone, Copy, Debug, PartialEq, Eq, Error)]
pub enum TyFault {
    /// The width of an integer is 0 or above 128.
    #[error("an integer has 1 to 128 bits")]
    WidthRange,
    /// A data type has more than 65,536 bits.
    #[error("a data type has at most 65536 bits")]
    TooManyBits,
    /// A data type nests more than 16 deep.
    #[error("a data type nests at most 16 deep")]
    TooDeep,
    /// An array has no element, or a struct no field.
    #[error("an array or struct has at least one part")]
    Empty,
    /// A part is of a kind that may not stand there.
    #[error("a part is of the wrong kind")]
    WrongPart,
    /// Memory ran out.
    #[error("out of memory")]
    OutOfMemory,
}

impl From<NoMemory> for TyFault {
    ghost from_gives = { λ _ e. e ≡ OutOfMemory };

    fn from(_: NoMemory) -> TyFault {
        TyFault::OutOfMemory
    }
}

/// A type of the language, within its limits.
///
/// A data type is an integer, an array or a struct; arrays and structs hold data types only. It has
/// at most 65,536 bits and nests at most 16 deep, where an integer has depth 1. A signal carries a
/// data type, and a pointer points to a data type or time.
#[cycle(ty)]
#[derive(Drop)]
pub struct Ty {
    node: TypeNode,
}

#[cycle(ty)]
#[derive(Drop)]
enum TypeNode {
    Int(u32),
    Time,
    Void,
    Array(u32, Box<Ty>),
    // Structs of one field and of two, which need no list.
    Single(Box<Ty>),
    Pair(Box<[Ty; 2]>),
    Tuple(Box<TyList>),
    Signal(Box<Ty>),
    Pointer(Box<Ty>),
}

/// A list of types.
#[cycle(ty)]
#[derive(Drop)]
pub struct TyList {
    list: Vec<Ty>,
}

/// One level of a type.
#[derive(Clone, Copy)]
pub enum TyKind<'a> {
    /// `iN`, with its width in bits.
    Int(u32),
    /// `time`.
    Time,
    /// `void`.
    Void,
    /// `[N x T]`, with the number of elements.
    Array(u32, &'a Ty),
    /// `{T1, T2}`.
    Tuple(&'a [Ty]),
    /// `T$`.
    Signal(&'a Ty),
    /// `T*`.
    Pointer(&'a Ty),
}

impl Model for Ty {
    ghost use Rattle.std.specs.Prelude.{ℕ};
    ghost use Rattle.lh_types.specs.Types.{TypeTree, IsLimited, node_count, type_coded};

    ghost Value = { TypeTree };

    ghost coded = { type_coded };

    ghost use Rattle.lh_types.specs.TypeOf.{type_of_node};

    ghost view = { λ a. type_of_node a.node };

    ghost invariant = { λ a. IsLimited (type_of_node a.node) };

    ghost size = { node_count };

    ghost use Rattle.lh_types.specs.TypeSize.{deep_le-node_count};

    ghost size_decreases = { λ a h. deep_le-node_count a.node };
}

impl Model for TyList {
    ghost use Rattle.std.specs.Prelude.{ℕ, List};
    ghost use Rattle.std.specs.Coded.{coded_list};
    ghost use Rattle.lh_types.specs.Types.{TypeTree, node_count_row, row_of, type_coded};

    ghost Value = { List TypeTree };

    ghost coded = { coded_list type_coded };

    ghost view = { λ a. a.list.items };

    ghost size = { λ ts. node_count_row (row_of ts) };

    ghost use Rattle.lh_types.specs.TypeSize.{most_le-node_count};

    ghost size_decreases = { λ a h. most_le-node_count a.list.items };
}

impl TyList {
    /// An empty list, which takes no memory yet.
    pub fn new(alloc: Global) -> TyList
        ensures { result ≡ [] }
    {
        TyList {
            list: Vec::new(alloc),
        }
    }

    /// An empty list with room for this many types, so that adding these makes no other room.
    pub fn with_room(alloc: Global, room: usize) -> Result<TyList, NoMemory>
        ensures { IfOk result (λ list. list ≡ []) }
    {
        let list = Vec::with_capacity(alloc, room)?;
        Ok(TyList { list })
    }

    /// The list of these types, without memory.
    pub fn from_vec(list: Vec<Ty>) -> TyList
        ensures { result ≡ list.items }
    {
        TyList { list }
    }

    /// The types, without memory.
    pub fn into_vec(self) -> Vec<Ty>
        ensures { result.items ≡ self }
    {
        self.list
    }

    /// How many types there are.
    pub fn len(&self) -> usize
        ensures { result ≡ length self.now }
    {
        self.list.len()
    }

    /// The types in order.
    pub fn as_slice(&self) -> &[Ty]
        ensures { result.now ≡ self.now }
    {
        self.list.as_slice()
    }

    /// Gives back the room that no type needs.
    pub fn shrink(&mut self)
        ensures { self.new ≡ self.old }
    {
        self.list.shrink_to_fit();
    }

    // The one type of a list of one, or the list as it is.
    fn into_single(mut self) -> Result<Ty, TyList>
        ensures single { IfOk result (λ t. self ≡ t ∷ []) }
        ensures list { IfErr result (λ list. list ≡ self) }
    {
        if self.list.len() == 1 {
            if let Some(only) = self.list.pop() {
                return Ok(only);
            }
        }
        Err(self)
    }

    /// Adds a type at the end; when memory runs out the list stays as it was.
    pub fn push(&mut self, x: Ty) -> Result<(), NoMemory>
        ensures ok { OnOk result (self.new ≡ self.old ++ x ∷ []) }
        ensures err { OnErr result (self.new ≡ self.old) }
    {
        // Most structs nest with few fields: what a list gives back later would lie there as a gap.
        if self.list.capacity() == 0 {
            self.list.reserve_exact(1)?;
        }
        self.list.push(x)?;
        Ok(())
    }
}

impl Ty {
    /// The integer type of this width in bits; `WidthRange` at 0 and above 128.
    pub fn int(width: u32) -> Result<Ty, TyFault>
        ensures { result ≡ made (int_fault width) (int_type width) }
    {
        if width == 0 || width > 128 {
            return Err(TyFault::WidthRange);
        }
        Ok(Ty {
            node: TypeNode::Int(width),
        })
    }

    /// The type of delays.
    pub fn time() -> Ty
        ensures { result ≡ time_type }
    {
        Ty {
            node: TypeNode::Time,
        }
    }

    /// The type of a function without a result.
    pub fn void() -> Ty
        ensures { result ≡ void_type }
    {
        Ty {
            node: TypeNode::Void,
        }
    }

    /// The array of `len` elements; each `TyFault` but `WidthRange`, the first that holds.
    pub fn array(alloc: Global, len: u32, of: Ty) -> Result<Ty, TyFault>
        ensures { MakesType result (array_fault len of) (array_type len of) }
    {
        if len == 0 {
            return Err(TyFault::Empty);
        }
        if !carries_data(&of) {
            return Err(TyFault::WrongPart);
        }
        if depth(&of) + 1 > 16 {
            return Err(TyFault::TooDeep);
        }
        if len as u64 * bits(&of) as u64 > 65536 {
            return Err(TyFault::TooManyBits);
        }
        let of = boxed(alloc, of)?;
        Ok(Ty {
            node: TypeNode::Array(len, of),
        })
    }

    /// The struct of these fields; each `TyFault` but `WidthRange`, the first that holds.
    pub fn tuple(fields: TyList) -> Result<Ty, TyFault>
        ensures { MakesType result (tuple_fault (row_of fields)) (tuple_type (row_of fields)) }
    {
        let parts = fields.as_slice();
        if parts.is_empty() {
            return Err(TyFault::Empty);
        }
        if !all_carry_data(parts) {
            return Err(TyFault::WrongPart);
        }
        if depth_of_fields(parts) + 1 > 16 {
            return Err(TyFault::TooDeep);
        }
        if have_too_many_bits(parts) {
            return Err(TyFault::TooManyBits);
        }
        let node = struct_node(fields)?;
        Ok(Ty { node })
    }

    /// The signal that carries this type; `WrongPart` where it is no data type.
    pub fn signal(alloc: Global, of: Ty) -> Result<Ty, TyFault>
        ensures { MakesType result (signal_fault of) (signal_type of) }
    {
        if !carries_data(&of) {
            return Err(TyFault::WrongPart);
        }
        let of = boxed(alloc, of)?;
        Ok(Ty {
            node: TypeNode::Signal(of),
        })
    }

    /// The pointer to this type; `WrongPart` where it is neither a data type nor time.
    pub fn pointer(alloc: Global, of: Ty) -> Result<Ty, TyFault>
        ensures { MakesType result (pointer_fault of) (pointer_type of) }
    {
        if !of.is_value_type() {
            return Err(TyFault::WrongPart);
        }
        let of = boxed(alloc, of)?;
        Ok(Ty {
            node: TypeNode::Pointer(of),
        })
    }

    /// One level of the type.
    pub fn kind(&self) -> TyKind<'_>
        ensures shape { type_of_kind result ≡ self.now }
        ensures limited { IsLimited self.now }
    {
        match &self.node {
            TypeNode::Int(n) => TyKind::Int(*n),
            TypeNode::Time => TyKind::Time,
            TypeNode::Void => TyKind::Void,
            TypeNode::Array(n, of) => TyKind::Array(*n, &**of),
            TypeNode::Single(field) => TyKind::Tuple(slice::from_ref(&**field)),
            TypeNode::Pair(fields) => TyKind::Tuple(fields.as_slice()),
            TypeNode::Tuple(fields) => TyKind::Tuple(fields.as_slice()),
            TypeNode::Signal(of) => TyKind::Signal(&**of),
            TypeNode::Pointer(of) => TyKind::Pointer(&**of),
        }
    }
}

fn boxed(alloc: Global, t: Ty) -> Result<Box<Ty>, NoMemory>
    ensures { IfOk result (λ b. b.value ≡ t) }
{
    Ok(Box::new(alloc, t)?)
}

fn boxed_pair(alloc: Global, pair: [Ty; 2]) -> Result<Box<[Ty; 2]>, NoMemory>
    ensures { IfOk result (λ b. b.value ≡ pair) }
{
    Ok(Box::new(alloc, pair)?)
}

// The node of the struct of these fields.
fn struct_node(fields: TyList) -> Result<TypeNode, NoMemory>
    ensures { IfOk result (λ node. type_of_node node ≡ tuple_type (row_of fields)) }
{
    let alloc = *fields.list.allocator();
    match fields.into_single() {
        Ok(field) => Ok(TypeNode::Single(boxed(alloc, field)?)),
        Err(fields) => list_node(alloc, fields.into_vec()),
    }
}

// The same, of fields that are not one alone.
fn list_node(alloc: Global, fields: Vec<Ty>) -> Result<TypeNode, NoMemory>
    ensures { IfOk result (λ node. type_of_node node ≡ tuple_type (row_of fields.items)) }
{
    match <[Ty; 2]>::try_from(fields) {
        Ok(pair) => Ok(TypeNode::Pair(boxed_pair(alloc, pair)?)),
        Err(mut list) => {
            list.shrink_to_fit();
            Ok(TypeNode::Tuple(Box::new(alloc, TyList { list })?))
        }
    }
}

/// Whether it is a data type.
pub fn carries_data(t: &Ty) -> bool
    ensures test { result ≡ is_data t.now }
    ensures data { IsTrue result → IsData t.now }
    ensures limited { IsLimited t.now }
{
    match &t.node {
        TypeNode::Int(_)
        | TypeNode::Array(_, _)
        | TypeNode::Single(_)
        | TypeNode::Pair(_)
        | TypeNode::Tuple(_) => true,
        TypeNode::Time | TypeNode::Void | TypeNode::Signal(_) | TypeNode::Pointer(_) => false,
    }
}

/// Whether all are data types.
fn all_carry_data(fields: &[Ty]) -> bool
    ensures test { result ≡ all_data (row_of fields.now) }
    ensures data { IsTrue result → AreData (row_of fields.now) }
{
    for field in fields {
        if !carries_data(field) {
            return false;
        }
    }
    true
}

/// How many bits a value of a data type has.
#[cycle(bits)]
pub fn bits(t: &Ty) -> u32
    requires { IsData t.now }
    ensures { result ≡ bit_count t.now }
{
    match t.kind() {
        TyKind::Int(n) => n,
        TyKind::Array(n, of) => n * bits(of),
        TyKind::Tuple(fields) => bits_of_fields(fields),
        _ => unreachable!(),
    }
}

/// How many bits the values of these data types have together.
#[cycle(bits)]
pub(crate) fn bits_of_fields(fields: &[Ty]) -> u32
    requires data { AreData (row_of fields.now) }
    requires narrow { bit_count_row (row_of fields.now) ≤ 65536 }
    ensures { result ≡ bit_count_row (row_of fields.now) }
{
    let mut sum = 0;
    for field in fields {
        sum += bits(field);
    }
    sum
}

/// Whether the values of these data types have more than 65,536 bits together.
fn have_too_many_bits(fields: &[Ty]) -> bool
    requires { AreData (row_of fields.now) }
    ensures { result ≡ nat_lt 65536 (bit_count_row (row_of fields.now)) }
{
    let mut sum = 0;
    for field in fields {
        sum += bits(field);
        if sum > 65536 {
            return true;
        }
    }
    false
}

/// How deep a data type nests; an integer has depth 1.
#[cycle(depth)]
fn depth(t: &Ty) -> u32
    requires { IsData t.now }
    ensures { result ≡ depth_of t.now }
{
    match t.kind() {
        TyKind::Int(_) => 1,
        TyKind::Array(_, of) => depth(of) + 1,
        TyKind::Tuple(fields) => depth_of_fields(fields) + 1,
        _ => unreachable!(),
    }
}

/// How deep the deepest of these data types nests, and 0 where there is none.
#[cycle(depth)]
fn depth_of_fields(fields: &[Ty]) -> u32
    requires { AreData (row_of fields.now) }
    ensures { result ≡ depth_of_row (row_of fields.now) }
{
    let mut most = 0;
    for field in fields {
        most = most.max(depth(field));
    }
    most
}

impl Ty {
    /// An equal type.
    #[cycle(copy)]
    pub fn copy(&self) -> Result<Ty, NoMemory>
        ensures { IfOk result (λ t. t ≡ self.now) }
    {
        let node = match &self.node {
            TypeNode::Int(n) => TypeNode::Int(*n),
            TypeNode::Time => TypeNode::Time,
            TypeNode::Void => TypeNode::Void,
            TypeNode::Array(n, of) => TypeNode::Array(*n, copied(of)?),
            TypeNode::Single(field) => TypeNode::Single(copied(field)?),
            TypeNode::Pair(fields) => {
                let [first, second] = &**fields;
                let pair = [first.copy()?, second.copy()?];
                TypeNode::Pair(boxed_pair(*Box::allocator(fields), pair)?)
            }
            TypeNode::Tuple(fields) => TypeNode::Tuple(copied_list(fields)?),
            TypeNode::Signal(of) => TypeNode::Signal(copied(of)?),
            TypeNode::Pointer(of) => TypeNode::Pointer(copied(of)?),
        };
        Ok(Ty { node })
    }
}

#[cycle(copy)]
fn copied(of: &Box<Ty>) -> Result<Box<Ty>, NoMemory>
    ensures { IfOk result (λ b. b.value ≡ of.now.value) }
{
    boxed(*Box::allocator(of), of.copy()?)
}

#[cycle(copy)]
fn copied_list(of: &Box<TyList>) -> Result<Box<TyList>, NoMemory>
    ensures { IfOk result (λ b. b.value ≡ of.now.value) }
{
    let list = of.copy()?;
    Ok(Box::new(*Box::allocator(of), list)?)
}

impl TyList {
    /// An equal list.
    #[cycle(copy)]
    pub fn copy(&self) -> Result<TyList, NoMemory>
        ensures { IfOk result (λ ts. ts ≡ self.now) }
    {
        let mut to = TyList::with_room(*self.list.allocator(), self.list.len())?;
        for t in self.list.as_slice() {
            let t = t.copy()?;
            to.push(t)?;
        }
        Ok(to)
    }
}

impl PartialEq for Ty {
    ghost use Rattle.std.specs.Cmp.{partial_equiv_from_equiv};
    ghost use Rattle.lh_types.specs.Types.{same_type};
    ghost use Rattle.lh_types.specs.Same.{same_type_equiv};

    ghost eq = { same_type };

    ghost laws = { partial_equiv_from_equiv same_type_equiv };

    // Most types are integers, which need no walk.
    fn eq(&self, other: &Ty) -> bool {
        match (&self.node, &other.node) {
            (TypeNode::Int(n), TypeNode::Int(m)) => *n == *m,
            _ => self.same(other),
        }
    }
}

impl Ty {
    #[cycle(same)]
    fn same(&self, other: &Ty) -> bool
        ensures { result ≡ same_type self.now other.now }
    {
        match (self.kind(), other.kind()) {
            (TyKind::Int(n), TyKind::Int(m)) => n == m,
            (TyKind::Time, TyKind::Time) => true,
            (TyKind::Void, TyKind::Void) => true,
            (TyKind::Array(n, t), TyKind::Array(m, u)) => n == m && t.same(u),
            (TyKind::Tuple(ts), TyKind::Tuple(us)) => same_fields(ts, us),
            (TyKind::Signal(t), TyKind::Signal(u)) => t.same(u),
            (TyKind::Pointer(t), TyKind::Pointer(u)) => t.same(u),
            _ => false,
        }
    }
}

impl Eq for Ty {
    ghost use Rattle.lh_types.specs.Same.{same_type_equiv};

    ghost laws = { same_type_equiv };
}

#[cycle(same)]
fn same_fields(ts: &[Ty], us: &[Ty]) -> bool
    ensures { result ≡ same_row (row_of ts.now) (row_of us.now) }
{
    if ts.len() != us.len() {
        return false;
    }
    for (i, t) in ts.iter().enumerate() {
        if !t.same(&us[i]) {
            return false;
        }
    }
    true
}
