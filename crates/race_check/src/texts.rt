// The texts that `set`s give to variables.
ghost use Rattle.std.specs.Prelude.{◌≡◌, ◌∷◌, ℕ, List, [], map, flat_map, bytes_eq, OnOk, IfOk, if◌then◌else◌, None, Some, is_some, MatchOption};
ghost use Rattle.std.specs.List.{list_any};
ghost use Rattle.std.specs.List.Sorted.{IsStrictlySortedBy};
ghost use Rattle.std.specs.Ordering.{nat_cmp};
ghost use Rattle.std.specs.Cmp.Lexicographic.{slice_cmp};
ghost use Rattle.site_views.specs.Pattern.{Pattern};
ghost use Rattle.site_model.specs.declared.site.Site.{Site as SiteRow};
ghost use Rattle.site_whole.specs.Whole.{step_seen};
ghost use Rattle.race_meaning.specs.Named.{set_text};
ghost use Rattle.race_check.specs.Texts.{known, with_text, told, is_one as one_text};

use crate::same::{is_steady, same_text};
use byte_text::{ByteText, OutOfMemory};
use ngx_variables::Value;
use site_model::RewriteStep;
use std::alloc::Global;
use std::collections::BTreeMap;

/// The texts that the `set`s of a server give a variable: one of literals and variables of the main request, or others.
#[derive(Drop)]
pub enum Texts {
    One(Value),
    Several,
}

/// The variables that `set`s set, each with its texts. Contracts see it by `known`.
#[derive(Drop)]
pub struct SetTexts {
    pub(crate) texts: BTreeMap<Vec<u8>, Texts>,
    alloc: Global,
}

impl SetTexts {
    /// No variable is set, which takes no memory.
    #[tactic(auto, unfolding(crate::specs::Texts::known))]
    pub fn new(alloc: Global) -> Self
        ensures { (name : List ℕ) → known result name ≡ None }
    {
        SetTexts {
            texts: BTreeMap::new(alloc),
            alloc,
        }
    }

    /// What is known of a variable with one text more; none where it stays the same.
    #[tactic(auto, unfolding(crate::specs::Texts::known))]
    fn next(&self, name: &[u8], text: &Value) -> Result<Option<Texts>, OutOfMemory>
        ensures { IfOk result (λ next. MatchOption next
            (known self.now name.now ≡ Some (with_text (known self.now name.now) text.now))
            (λ texts. texts ≡ with_text (known self.now name.now) text.now)) }
    {
        match self.texts.get(name) {
            None => {
                let texts = first_texts(self.alloc, text)?;
                Ok(Some(texts))
            }
            Some(Texts::One(first)) => {
                if same_text(first, text) {
                    return Ok(None);
                }
                Ok(Some(Texts::Several))
            }
            Some(Texts::Several) => Ok(None),
        }
    }

    /// A `set` gives a variable a text.
    pub fn add(&mut self, name: &[u8], text: &Value) -> Result<(), OutOfMemory>
        ensures { OnOk result ((other : List ℕ) → known self.new other
            ≡ told (known self.old other)
            (if bytes_eq name.now other then text.now ∷ [] else [])) }
    {
        match self.next(name, text)? {
            None => Ok(()),
            Some(texts) => {
                let key = name.to_vec(self.alloc)?;
                self.texts.insert(key, texts)?;
                Ok(())
            }
        }
    }

    #[tactic(auto, unfolding(crate::specs::Texts::told))]
    fn add_step(&mut self, step: &RewriteStep) -> Result<(), OutOfMemory>
        ensures { OnOk result ((patterns : List Pattern) (site : SiteRow) (name : List ℕ)
            → known self.new name
            ≡ told (known self.old name) (set_text name (step_seen patterns site step.now))) }
    {
        match step {
            RewriteStep::Set { name, text } => {
                self.add(name.as_slice(), text)?;
                Ok(())
            }
            RewriteStep::If { .. }
            | RewriteStep::Rewrite { .. }
            | RewriteStep::Return { .. }
            | RewriteStep::Stop => Ok(()),
        }
    }

    /// The `set`s of a program, in their order.
    pub fn add_steps(&mut self, steps: &[RewriteStep]) -> Result<(), OutOfMemory>
        ensures { OnOk result ((patterns : List Pattern) (site : SiteRow) (name : List ℕ)
            → known self.new name
            ≡ told (known self.old name)
            (flat_map (set_text name) (map (step_seen patterns site) steps.now))) }
    {
        for step in steps {
            self.add_step(step)?;
        }
        Ok(())
    }

    /// The variables, in the order of their bytes.
    #[tactic(auto, unfolding(crate::specs::Texts::known))]
    pub fn names(&self) -> Result<Vec<ByteText>, OutOfMemory>
        ensures all { IfOk result (λ names. (name : List ℕ)
            → list_any (bytes_eq name) names.items ≡ is_some (known self.now name)) }
        ensures rising { IfOk result (λ names.
            IsStrictlySortedBy (slice_cmp nat_cmp) names.items) }
    {
        let mut names = Vec::new(self.alloc);
        for name in self.texts.keys() {
            names.push(ByteText::from_slice(self.alloc, name.as_slice())?)?;
        }
        Ok(names)
    }

    /// Whether a variable has one text of literals and variables of the main request alone.
    #[tactic(auto, unfolding(crate::specs::Texts::known))]
    pub fn is_one(&self, name: &[u8]) -> bool
        ensures { result ≡ one_text (known self.now name.now) }
    {
        match self.texts.get(name) {
            Some(Texts::One(_)) => true,
            Some(Texts::Several) | None => false,
        }
    }
}

fn first_texts(alloc: Global, text: &Value) -> Result<Texts, OutOfMemory>
    ensures { IfOk result (λ texts. texts ≡ with_text None text.now) }
{
    if is_steady(text) {
        return Ok(Texts::One(text.copy(alloc)?));
    }
    Ok(Texts::Several)
}
