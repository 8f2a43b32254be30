//! An option of `simulate`, in front of some words.
ghost use Rattle.std.specs.Prelude.{◌≡◌, ◌++◌, ◌∷◌, [], ℕ, List, IfSome, IfNone};
ghost use Rattle.lh_args.specs.Forms.{Choice, spelled};
ghost use Rattle.lh_args.specs.Meant.{choice_of};

use lh_types::list::ByteList;

/// An option, with the word that is its value.
#[derive(Clone, Copy)]
pub enum Setting<'a> {
    Top(&'a [u8]),
    Steps(&'a [u8]),
    Vcd,
    Watch(&'a [u8]),
}

/// The option in front of some words, and the words behind it.
pub fn first_choice(words: &[ByteList]) -> Option<(Setting<'_>, &[ByteList])>
    ensures some { IfSome result (λ r. words.now ≡ spelled (choice_of r.0) ++ r.1.now) }
    ensures none { IfNone result ((c : Choice) (more : List (List ℕ)) → words.now ≡ spelled c ++ more → ⊥) }
{
    let (word, more) = words.split_first()?;
    if word.as_slice() == b"--vcd".as_slice() {
        return Some((Setting::Vcd, more));
    }
    let (value, rest) = more.split_first()?;
    let setting = setting_of(word.as_slice(), value.as_slice())?;
    Some((setting, rest))
}

// The option that has a value: by its word, and the word behind it.
fn setting_of<'a>(word: &[u8], value: &'a [u8]) -> Option<Setting<'a>>
    ensures some { IfSome result (λ s. spelled (choice_of s) ≡ word.now ∷ value.now ∷ []) }
    ensures none { IfNone result ((c : Choice) → spelled c ≡ word.now ∷ value.now ∷ [] → ⊥) }
{
    if word == b"--top".as_slice() {
        Some(Setting::Top(value))
    } else if word == b"--steps".as_slice() {
        Some(Setting::Steps(value))
    } else if word == b"--watch".as_slice() {
        Some(Setting::Watch(value))
    } else {
        None
    }
}
