// Names.
ghost use Rattle.std.specs.Prelude.{◌≡◌, ◌≤◌, IfOk};
ghost use Rattle.lh_unit_names.specs.Names.{IsName};
ghost use Rattle.lh_unit_names.specs.NameBytes.{bytes_of, IsInPlace};
ghost use Rattle.lh_unit_names.specs.UnitNames.{is_assert};

use lh_types::memory::NoMemory;
use std::alloc::Global;
use std::boxed::Box;
use std::fmt;
use std::hash::{Hash, Hasher};
use std::marker::Model;

// How many bytes of a name lie in place: as many as leave it three words long.
const IN_PLACE: usize = 22;

/// A name, 1 to 255 name bytes. One of at most 22 bytes takes no memory of its own.
#[derive(Drop)]
pub struct Name {
    bytes: NameBytes,
}

#[derive(Drop)]
enum NameBytes {
    Short { len: u8, bytes: [u8; IN_PLACE] },
    Long(Box<Vec<u8>>),
}

impl Model for Name {
    ghost use Rattle.std.specs.Prelude.{ℕ, List};
    ghost use Rattle.lh_unit_names.specs.Names.{IsName};
    ghost use Rattle.lh_unit_names.specs.NameBytes.{bytes_of, IsInPlace};

    ghost Value = { List ℕ };

    ghost view = { λ n. bytes_of n.bytes };

    ghost invariant = { λ n. IsInPlace n.bytes × IsName (bytes_of n.bytes) };
}

/// The bytes as text: a name has letters, digits, `_` and `.` alone.
impl fmt::Debug for Name {
    fn fmt<W: fmt::Write>(&self, f: &mut fmt::Formatter<W>) -> fmt::Result {
        for byte in self.as_bytes() {
            f.write_char(char::from(*byte))?;
        }
        Ok(())
    }
}

impl PartialEq for Name {
    ghost use Rattle.std.specs.Prelude.{◌==◌};
    ghost use Rattle.std.proofs.Common.{rules};
    ghost use Rattle.std.specs.Cmp.Rules.{comparing};
    ghost use lib.Pointwise.{pointwise};

    ghost eq = { pointwise ◌==◌ };

    ghost laws = { Prim.search (comparing, rules) };

    fn eq(&self, other: &Name) -> bool {
        self.as_bytes() == other.as_bytes()
    }
}

impl Eq for Name {
    ghost use Rattle.std.proofs.Common.{rules};
    ghost use Rattle.std.specs.Cmp.Rules.{comparing};

    ghost laws = { Prim.search (comparing, rules) };
}

// The bytes go to the hasher at once, which is a few times as fast as one by one.
impl Hash for Name {
    ghost use Rattle.std.specs.Prelude.{[], ◌∷◌};
    ghost use Rattle.std.proofs.Common.{rules};
    ghost use Rattle.std.specs.Cmp.Rules.{hashing};

    ghost hash_input = { λ n. n ∷ [] };

    ghost respects_eq = { Prim.search (hashing, rules) };

    fn hash<H: Hasher>(&self, state: &mut H) {
        state.write(self.as_bytes());
    }
}

impl Name {
    /// The name of these bytes.
    pub fn new(alloc: Global, bytes: &[u8]) -> Result<Name, NoMemory>
        requires { IsName bytes.now }
        ensures { IfOk result (λ n. n ≡ bytes.now) }
    {
        let bytes = kept(alloc, bytes)?;
        Ok(Name { bytes })
    }

    /// The bytes in order.
    pub fn as_bytes(&self) -> &[u8]
        ensures value { result.now ≡ self.now }
        ensures name { IsName self.now }
    {
        match &self.bytes {
            NameBytes::Short { len, bytes } => &bytes[..*len as usize],
            NameBytes::Long(bytes) => bytes.as_slice(),
        }
    }

    /// An equal name.
    pub fn copy(&self) -> Result<Name, NoMemory>
        ensures { IfOk result (λ n. n ≡ self.now) }
    {
        let bytes = match &self.bytes {
            NameBytes::Short { len, bytes } => NameBytes::Short {
                len: *len,
                bytes: *bytes,
            },
            NameBytes::Long(bytes) => kept(*Box::allocator(bytes), bytes.as_slice())?,
        };
        Ok(Name { bytes })
    }
}

fn kept(alloc: Global, bytes: &[u8]) -> Result<NameBytes, NoMemory>
    ensures bytes { IfOk result (λ k. bytes_of k ≡ bytes.now) }
    ensures in_place { IfOk result IsInPlace }
{
    let len = bytes.len();
    if len > IN_PLACE {
        let long = bytes.to_vec(alloc)?;
        return Ok(NameBytes::Long(Box::new(alloc, long)?));
    }
    let mut room = [0u8; IN_PLACE];
    room[..len].copy_from_slice(bytes);
    Ok(NameBytes::Short {
        len: len as u8,
        bytes: room,
    })
}

/// The name of a unit.
#[derive(Debug, Drop)]
pub struct UnitName {
    /// `@` or `%`: two names with other sigils are two.
    pub sigil: u8,
    pub name: Name,
}

impl PartialEq for UnitName {
    ghost use Rattle.std.proofs.Common.{rules};
    ghost use Rattle.std.specs.Cmp.Rules.{comparing};
    ghost use Rattle.lh_unit_names.specs.UnitNames.{same_unit_name};

    ghost eq = { same_unit_name };

    ghost laws = { Prim.search (comparing, rules) };

    fn eq(&self, other: &UnitName) -> bool {
        self.sigil == other.sigil && self.name == other.name
    }
}

impl Eq for UnitName {
    ghost use Rattle.std.proofs.Common.{rules};
    ghost use Rattle.std.specs.Cmp.Rules.{comparing};

    ghost laws = { Prim.search (comparing, rules) };
}

impl Hash for UnitName {
    ghost use Rattle.std.specs.Prelude.{[], ◌∷◌, ◌++◌};
    ghost use Rattle.std.proofs.Common.{rules};
    ghost use Rattle.std.specs.Hash as fed;
    ghost use Rattle.std.specs.Cmp.Rules.{hashing};

    ghost hash_input = { λ n. fed.u8 n.sigil ++ (n.name ∷ []) };

    ghost respects_eq = { Prim.search (hashing, rules) };

    fn hash<H: Hasher>(&self, state: &mut H) {
        self.sigil.hash(state);
        self.name.hash(state);
    }
}

impl UnitName {
    /// An equal name.
    pub fn copy(&self) -> Result<UnitName, NoMemory>
        ensures { IfOk result (λ n. n ≡ self.now) }
    {
        let name = self.name.copy()?;
        Ok(UnitName {
            sigil: self.sigil,
            name,
        })
    }

    /// Whether it is `@llhd.assert`, which counts as a defined function.
    pub fn is_assert(&self) -> bool
        ensures { result ≡ is_assert self.now }
    {
        self.sigil == b'@' && self.name.as_bytes() == b"llhd.assert".as_slice()
    }
}
