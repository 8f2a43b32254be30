//! The options of `simulate`, each as often as it may be given.
ghost use Rattle.std.specs.Prelude.{◌≡◌, ◌++◌, ◌∷◌, [], ℕ, List, IfSome, IfNone};
ghost use Rattle.std.specs.List.{flat_map};
ghost use Rattle.lh_args.specs.Forms.{Choice, top, steps, vcd, spelled};
ghost use Rattle.lh_args.specs.Meant.{choice_of};
ghost use Rattle.lh_args.specs.Found.{OptionsAreFound, AtMostOnce, IsAllFound};

use crate::choice::{Setting, first_choice};
use lh_types::list::ByteList;

/// The options that were found, by their values; the titles of watchers are found again where they are needed.
#[derive(Clone, Copy)]
pub struct FoundOptions<'a> {
    pub top: Option<&'a [u8]>,
    pub steps: Option<&'a [u8]>,
    pub vcd: bool,
}

/// The options that some words are; none where the words are no options, or one is given twice that may
/// be given once.
pub fn found_in(options: &[ByteList]) -> Option<FoundOptions<'_>>
    ensures some { IfSome result (λ f. IsAllFound options.now f) }
    ensures none { IfNone result ((all : List Choice) → options.now ≡ flat_map spelled all → AtMostOnce all → ⊥) }
{
    let mut found = FoundOptions {
        top: None,
        steps: None,
        vcd: false,
    };
    let mut rest = options;
    while !rest.is_empty() {
        let (setting, more) = first_choice(rest)?;
        found = found.with(setting)?;
        rest = more;
    }
    Some(found)
}

impl<'a> FoundOptions<'a> {
    // These and one more option; none where it was found before and may be given once.
    fn with(self, setting: Setting<'a>) -> Option<FoundOptions<'a>>
        ensures some { IfSome result (λ f. (done : List Choice) → OptionsAreFound self.entry done → OptionsAreFound f (done ++ choice_of setting.entry ∷ [])) }
        ensures none { IfNone result ((done more : List Choice) → OptionsAreFound self.entry done → AtMostOnce (done ++ choice_of setting.entry ∷ more) → ⊥) }
    {
        match setting {
            Setting::Top(name) => self.with_top(name),
            Setting::Steps(number) => self.with_steps(number),
            Setting::Vcd => self.with_vcd(),
            Setting::Watch(_) => Some(self),
        }
    }

    fn with_top(self, name: &'a [u8]) -> Option<FoundOptions<'a>>
        ensures some { IfSome result (λ f. (done : List Choice) → OptionsAreFound self.entry done → OptionsAreFound f (done ++ top name.now ∷ [])) }
        ensures none { IfNone result ((done more : List Choice) → OptionsAreFound self.entry done → AtMostOnce (done ++ top name.now ∷ more) → ⊥) }
    {
        if self.top.is_some() {
            return None;
        }
        Some(FoundOptions {
            top: Some(name),
            ..self
        })
    }

    fn with_steps(self, number: &'a [u8]) -> Option<FoundOptions<'a>>
        ensures some { IfSome result (λ f. (done : List Choice) → OptionsAreFound self.entry done → OptionsAreFound f (done ++ steps number.now ∷ [])) }
        ensures none { IfNone result ((done more : List Choice) → OptionsAreFound self.entry done → AtMostOnce (done ++ steps number.now ∷ more) → ⊥) }
    {
        if self.steps.is_some() {
            return None;
        }
        Some(FoundOptions {
            steps: Some(number),
            ..self
        })
    }

    fn with_vcd(self) -> Option<FoundOptions<'a>>
        ensures some { IfSome result (λ f. (done : List Choice) → OptionsAreFound self.entry done → OptionsAreFound f (done ++ vcd ∷ [])) }
        ensures none { IfNone result ((done more : List Choice) → OptionsAreFound self.entry done → AtMostOnce (done ++ vcd ∷ more) → ⊥) }
    {
        if self.vcd {
            return None;
        }
        Some(FoundOptions { vcd: true, ..self })
    }
}
